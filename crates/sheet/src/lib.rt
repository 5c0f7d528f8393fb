// A code sheet's bytes to what it states; of what is stated, refusal 5 and the defining set D.
#![tactic(auto)]

// a certificate
pub mod types;

// numbers of document 01's sheets, and refusals 1, 2 and 4
pub mod header;

// what such a sheet states, read
pub mod read;

// refusal 5; D marked, and its size
pub mod cosets;
