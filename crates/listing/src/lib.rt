// Text in a lent slice: bytes, numbers, and the lines of a sheet's listing.
#![tactic(auto)]

// the page that is written; bytes and decimal numbers
pub mod piece;

// members of D, and coefficients
pub mod write;

// each line of the listing
pub mod lines;

// the whole listing
pub mod page;
