// A hello's version and names judged, its form being right.
ghost use Rattle.std.specs.Prelude.{◌≡◌, ◌∷◌, []};
ghost use Rattle.handshake.specs.Bytes.{one_of};
ghost use Rattle.handshake.specs.Handshake.{version20, version21, judge_names};

use crate::Hello;

// Our name and the accepted peer's, and a hello's version and second line.
#[derive(Clone, Copy)]
pub struct Names<'a> {
    pub local: &'a [u8],
    pub remote: &'a [u8],
    pub version: &'a [u8],
    pub two: &'a [u8],
}

impl<'a> Names<'a> {
    // The hello that the sender of this name and these numbers sent.
    #[tactic(auto, unfolding(lists::specs::Lists::eq_bytes, crate::specs::Handshake::judge_names))]
    pub fn judge_names(self, name: &[u8], process: u32, relative: u32) -> Hello
        ensures { result ≡ judge_names self.entry.local.now self.entry.remote.now self.entry.version.now self.entry.two.now name.now process relative }
    {
        if !known_version(self.version) {
            return Hello::Refused(11);
        }
        if self.two != self.local {
            return Hello::Refused(12);
        }
        if name != self.remote {
            return Hello::Refused(13);
        }
        Hello::Accepted { process, relative }
    }
}

#[tactic(auto, unfolding(lists::specs::Lists::eq_bytes, crate::specs::Bytes::one_of, crate::specs::Handshake::version20, crate::specs::Handshake::version21))]
fn known_version(version: &[u8]) -> bool
    ensures { result ≡ one_of version.now (version20 ∷ version21 ∷ []) }
{
    version == b"2.0".as_slice() || version == b"2.1".as_slice()
}
