// The number and the values of an answer, as they go to hosts in C.
ghost use Rattle.std.specs.Prelude.{◌≡◌, ◌≤◌, length};
ghost use Rattle.lists.specs.Lists.{pad_to};
ghost use Rattle.session.specs.Answers.{answer_number, commit_number, values_of};

use crate::{Answer, Commit, Values};

// An answer's number: a refusal's own, and from 256 on for the others.
#[tactic(auto, unfolding(crate::specs::Answers::answer_number))]
pub fn answer_number(a: Answer) -> u32
    ensures { result ≡ answer_number a }
{
    match a {
        Answer::More => 256,
        Answer::Hello { .. } => 257,
        Answer::Status => 258,
        Answer::Request => 259,
        Answer::Finished => 260,
        Answer::Partial => 261,
        Answer::Confirmed => 262,
        Answer::Heartbeat => 263,
        Answer::Error(_) => 264,
        Answer::Table(_) => 265,
        Answer::Switch(_) => 266,
        Answer::Update { .. } => 267,
        Answer::Acknowledgement { .. } => 268,
        Answer::Skipped(_) => 269,
        Answer::Refused(number) | Answer::RefusedAt { number, .. } => u32::from(number),
    }
}

impl From<Commit> for u64 {
    ghost from_gives = { λ how r. r ≡ commit_number how };

    fn from(how: Commit) -> u64 {
        match how {
            Commit::New => 0,
            Commit::Replaced => 1,
        }
    }
}

// At most four values, and zeros after them.
fn values(given: &[u64]) -> Values
    requires { length given.now ≤ 4 }
    ensures { result ≡ record { numbers = pad_to 4 given.now; count = length given.now } }
{
    let mut numbers = [0; 4];
    numbers[..given.len()].copy_from_slice(given);
    Values {
        numbers,
        count: given.len() as u32,
    }
}

// An answer's values, in the order of its line of the listing.
#[tactic(auto, unfolding(lists::specs::Lists::pad_to, crate::specs::Answers::values_of, crate::specs::Answers::answer_values))]
pub fn answer_values(a: Answer) -> Values
    ensures { result ≡ values_of a }
{
    match a {
        Answer::Hello { process, relative } => values(&[u64::from(process), u64::from(relative)]),
        Answer::Error(kind) | Answer::Skipped(kind) => values(&[u64::from(kind)]),
        Answer::Table(place) | Answer::Switch(place) => values(&[place as u64]),
        Answer::Update {
            table,
            id,
            entry,
            commit,
        } => values(&[table as u64, u64::from(id), entry as u64, u64::from(commit)]),
        Answer::Acknowledgement { id, update } => values(&[u64::from(id), u64::from(update)]),
        Answer::RefusedAt { offset, .. } => values(&[offset as u64]),
        _ => values(&[]),
    }
}
