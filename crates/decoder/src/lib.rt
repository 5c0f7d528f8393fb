// From a received word to the places to change, and its bytes with these changed, or refusal 13; and the same with marked places, or
// refusal 15; and a block of words. decode.rt says how it goes, marked.rt with marks, block.rt with a block.
#![tactic(auto)]

// the code that an accepted sheet states
pub mod stated;

// values, syndromes, rows, places and the last test, in lent slices
pub mod correct;

// the bytes of a word with listed places changed
pub mod repair;

// the arrays for these, by the certificate's terms
pub mod arrays;

// the tables, by the field's degree
pub mod tables;

// an accepted sheet's received word: refusals 11 to 13
pub mod decode;

// the trial words of a word with marked places, and which of them is shown
pub mod trials;

// an accepted sheet's received word and its marks: refusals 11, 12 and 15
pub mod marked;

// an accepted sheet's block of words: refusals 11 and 12, and a verdict for each word
pub mod block;
