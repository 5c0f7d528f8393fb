// Polynomials over the field in lent slices, and Euclid's algorithm on them, which solves the key equation.
#![tactic(auto)]

// Euclid's rows, and where the locator stands
pub mod types;

// multiples added in place; the length of a polynomial
pub mod row;

// division with remainder, the cofactors kept in step
pub mod division;

// Euclid's algorithm on x^L and the syndromes
pub mod euclid;
