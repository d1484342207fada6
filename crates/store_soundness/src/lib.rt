// Soundness of a store, tested: of each table and entry, and that no two have one name or key. Refusal 4 is given where a test fails.
#![tactic(auto)]

pub mod codes;
pub mod entry;
pub mod hashes;
pub mod keys;
pub mod names;
pub mod table;
