// Record and store as lines, for the program `replay`.
#![tactic(auto)]

pub mod bound;
pub mod counts;
pub mod entry;
pub mod lines;
pub mod phase;
pub mod present_words;
pub mod record_lines;
pub mod sending;
pub mod table;
