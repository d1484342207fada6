// A hello judged: its three lines found, and their form tested.
ghost use Rattle.std.specs.Prelude.{◌≡◌};
ghost use Rattle.handshake.specs.Handshake.{judge_numbers, judge_third, judge_lines, judge_hello, either};

use crate::Hello;
use crate::lines::line_end;
use crate::names::Names;
use crate::sender::{first_part, read_number};

impl<'a> Names<'a> {
    #[tactic(auto, using(crate::proofs::judging::ThirdLine::judging_numbers))]
    fn judge_numbers(self, name: &[u8], rest: &[u8]) -> Hello
        ensures { result ≡ judge_numbers self.entry.local.now self.entry.remote.now self.entry.version.now self.entry.two.now name.now rest.now }
    {
        let Some(k) = first_part(rest) else {
            return Hello::Refused(10);
        };
        let Some(process) = read_number(&rest[..k]) else {
            return Hello::Refused(10);
        };
        let Some(relative) = read_number(&rest[k + 1..]) else {
            return Hello::Refused(10);
        };
        self.judge_names(name, process, relative)
    }

    #[tactic(auto, using(crate::proofs::judging::ThirdLine::judging_third))]
    fn judge_third(self, three: &[u8]) -> Hello
        ensures { result ≡ judge_third self.entry.local.now self.entry.remote.now self.entry.version.now self.entry.two.now three.now }
    {
        let Some(k) = first_part(three) else {
            return Hello::Refused(10);
        };
        self.judge_numbers(&three[..k], &three[k + 1..])
    }
}

#[tactic(auto, using(crate::proofs::judging::ThreeLines::judging_lines, lists::proofs::Bytes::by_prefix), unfolding(lists::specs::Lists::eq_bytes))]
fn judge_lines(local: &[u8], remote: &[u8], one: &[u8], two: &[u8], three: &[u8]) -> Hello
    ensures { result ≡ judge_lines local.now remote.now one.now two.now three.now }
{
    if one.len() <= 9 || !one.starts_with(b"HAProxyS ") || two.len() < 1 {
        return Hello::Refused(10);
    }
    let names = Names {
        local,
        remote,
        version: &one[9..],
        two,
    };
    names.judge_third(three)
}

// What the bytes of a hello come to, as an error where a line has no end.
#[tactic(auto, using(crate::proofs::judging::ThreeLines::judging_hello))]
fn judge_ended(s: &[u8], local: &[u8], remote: &[u8]) -> Result<Hello, Hello>
    ensures { either result ≡ judge_hello local.now remote.now s.now }
{
    let p = line_end(s, 0)?;
    let q = line_end(s, p + 1)?;
    let e = line_end(s, q + 1)?;
    Ok(judge_lines(local, remote, &s[..p], &s[p + 1..q], &s[q + 1..e]))
}

// What the bytes of a hello come to, where our name is `local` and the accepted peer's `remote`.
pub fn judge_hello(s: &[u8], local: &[u8], remote: &[u8]) -> Hello
    ensures { result ≡ judge_hello local.now remote.now s.now }
{
    match judge_ended(s, local, remote) {
        Ok(hello) | Err(hello) => hello,
    }
}
