// Words and messages in bytes; the codeword of a message, the message of a codeword, and which words are codewords.
#![tactic(auto)]

// a code with messages
pub mod code;

// single places, four or eight at once, and spare bits
pub mod layout;

// words taken out of a block
pub mod block;

// what the encoder keeps: a remainder by the generator
pub mod remainder;

// the test for a codeword
pub mod test;

// codewords and messages written into bytes
pub mod write;
