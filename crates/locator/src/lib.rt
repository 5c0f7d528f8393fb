// The places at which the factor of a place divides a locator.
#![tactic(auto)]

// a locator's terms made ready for the search
pub mod terms;

// Chien's search for f = 1 + x, and one in lanes for any f
pub mod search;

// the places listed and counted
pub mod locate;
