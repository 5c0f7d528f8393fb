// Document 01, with the requests of document 02, as definitions (specs), with what is true of them (proofs); the types of the entries' answers.
#![tactic(auto)]

pub mod types;
