// A word taken out of a block that carries m words: place j of word i is bit j·m + i of the block, so eight neighbouring places of a word
// are eight bits of the block that are m apart. Bits of a block lie in its bytes as the places of a word do, the highest first.
ghost use Rattle.std.specs.Prelude.{◌≡◌, ◌<◌, ◌≤◌, length};
ghost use Rattle.document.specs.Layout.{word_weight, place};
ghost use Rattle.codeword.specs.Interleaved.{EightApart, Deinterleaved};

use crate::layout::{Layout, Word};

// Bit p of a block; past its last byte 0.
fn block_bit(block: &[u8], p: usize) -> u8
    ensures { result ≡ place word_weight block.now p }
{
    if p / 8 < block.len() {
        Word::place(block, p)
    } else {
        0
    }
}

// Eight bits of a block, m apart, from bit p on; the first of them highest.
fn eight_bits_apart(block: &[u8], p: usize, m: usize) -> usize
    requires { (p ≤ 1000000) × (m ≤ 255) }
    ensures { EightApart block.now p m result }
{
    let mut eight: usize = 0;
    for k in 0..8 {
        eight = eight * 2 + usize::from(block_bit(block, p + k * m));
    }
    eight
}

// Word i of a block of m words into its bytes, eight places at a time.
pub fn deinterleave_word(m: usize, i: usize, block: &[u8], word: &mut [u8])
    requires { (m ≤ 255) × (i ≤ 255) × (length word.old ≤ 128) }
    ensures { Deinterleaved m i block.now word.new }
{
    for (j, byte) in word.iter_mut().enumerate() {
        *byte = eight_bits_apart(block, 8 * j * m + i, m) as u8;
    }
}
