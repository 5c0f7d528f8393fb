// Polynomials over two elements, as masks and packed 64 places to a number.
#![tactic(auto)]

// coprime numbers, and the degree of a mask
pub mod factor;

// whether two masks have a common factor
pub mod common;

// the period of a mask
pub mod period;

// whether powers of x^n are independent modulo a mask
pub mod independence;

// polynomials in slices: products, powers of x, places
pub mod packed;

// the register of a division
pub mod register;
