// The state of a link, which needs no sheet: how hard it is working. The caller lends each state as bytes.
#![tactic(auto)]

// the last 64 words: how many were refused, and how many places were changed in the others
pub mod health;
