// The field of 2^s elements: masks below 2^s, multiplied modulo document 01's mask of degree s.
#![tactic(auto)]

// document 01's table of masks; products by shifts
pub mod product;

// powers by squaring
pub mod power;

// the degree s for a length n
pub mod order;

// powers of ω and logarithms, filled into lent slices, and what these then are
pub mod tables;

// products, inverses and quotients by the tables
pub mod logarithm;

// powers of ω whose exponent is a product
pub mod exponent;
