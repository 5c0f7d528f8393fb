// A certificate held to its four rules in turn, and its distance; what it proves of the code (proofs).
#![tactic(auto)]

// rule 1
pub mod range;

// rules 3 and 4
pub mod rules;

// all four in turn, and the distance
pub mod check;
