// The values of a word at powers of α, and its syndromes; whether a word with some places changed is a codeword.
#![tactic(auto)]

// the value of a word at one power of ω
pub mod columns;

// values at the representatives, and at all of D
pub mod values;

// the syndromes of a certificate
pub mod syndromes;

// the test of a repaired word
pub mod agreement;
