// The number of held entries of each table after a message.
ghost use Rattle.std.specs.Prelude.{◌≡◌};
ghost use Rattle.reading.specs.Counts.{committed_counts, answered_counts};

use session::{Answer, Commit};
use store::TABLES;
use store::counts::raise;

// A new entry adds one to its table; one that replaces adds none.
#[tactic(auto, unfolding(crate::specs::Counts::committed_counts))]
fn committed_counts(counts: [u32; TABLES], table: usize, commit: Commit) -> [u32; TABLES]
    ensures { result ≡ committed_counts table commit counts }
{
    match commit {
        Commit::New => raise(counts, table),
        Commit::Replaced => counts,
    }
}

// Only a committed entry can change them.
#[tactic(auto, using(crate::proofs::counts::Answered::answering), unfolding(crate::specs::Counts::answered_counts))]
pub fn answered_counts(counts: [u32; TABLES], answer: Answer) -> [u32; TABLES]
    ensures { result ≡ answered_counts answer counts }
{
    match answer {
        Answer::Update { table, commit, .. } => committed_counts(counts, table, commit),
        _ => counts,
    }
}
