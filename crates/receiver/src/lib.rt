// The byte model and the claim over lists of reading calls. The calls themselves are in the crate `reading`.
#![tactic(auto)]
