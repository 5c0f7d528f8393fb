// The generator of a code, coset by coset.
#![tactic(auto)]

// powers of ω and their logarithms, filled into lent slices
pub mod round;

// the product of x - α^i over one coset
pub mod coset;

// the product over all cosets
pub mod generator;
