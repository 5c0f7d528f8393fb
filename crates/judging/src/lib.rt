// What a sheet states that draws none of refusals 1 to 4: refusals 5 to 10, the working certificate and the record.
#![tactic(auto)]

// the best certificate so far
pub mod types;

// all certificates checked, and the working one
pub mod weigh;

// the record
pub mod record;

// refusals 5 to 10 in turn
pub mod judge;
