// The entries, each for any input: judge, encode, read and decode, these three of shortened codes too, decode_marked with shown, decode_block,
// and card; and the numbers of refusals.
#![tactic(auto)]

// the documents' numbers of refusals
pub mod refusal;

// every entry's first step
mod judged;

// how many places may be left out
mod shortening;

// a sheet to its record
pub mod judge;

// a message to its codeword
pub mod encode;

// a codeword to its message
pub mod read;

// a received word to the codeword near it
pub mod decode;

// a received word with marked places to the codeword that fits it
pub mod marked;

// a received block of words to the codewords near them
pub mod block;

// a sheet to its listing
pub mod card;
