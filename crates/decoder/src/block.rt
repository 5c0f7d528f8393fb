// Decoding a block of m words, for an accepted sheet.
//
// Place j of word i is bit j·m + i of the block. So of any m·t neighbouring bits at most t are of one word, and a block of codewords whose
// spoiled bits all lie among m·t neighbouring ones, none of them spare, comes back whole. The words are taken out of the block first, one after the other; then each is decoded into
// its own bytes of the output, with one set of tables. Nothing is written before all lengths and spare bits are found right.
ghost use Rattle.std.specs.Prelude.{◌≡◌, [], ◌∷◌, ◌*◌, ◌<◌, ◌≤◌, length};
ghost use Rattle.document.specs.Answer.{returned, replied_as};
ghost use Rattle.document.specs.Layout.{bytes_for};
ghost use Rattle.decoder.specs.Block.{WordsDeinterleaved, VerdictsWritten, BlockReceivable, BlockDecoded};

use crate::stated::StatedCode;
use crate::tables::decode_words;
use codeword::block::deinterleave_word;
use codeword::layout::{Layout, Word, bytes_for};
use document::types::Refusal;

// The m words of a block, of `size` bytes each.
fn deinterleave(m: usize, size: usize, block: &[u8], words: &mut [u8])
    requires { (m ≤ 16) × (size ≤ 128) × (length words.old ≡ m * size) }
    ensures { WordsDeinterleaved m size block.now words.new }
{
    for i in 0..m {
        let start = i * size;
        let end = start + size;
        deinterleave_word(m, i, block, &mut words[start..end]);
    }
}

// Verdicts as bytes: a count of changed places stays as it is, and none near becomes 255: they are bytes, since C lends them.
fn write_verdicts(counts: &[Option<u8>], verdicts: &mut [u8])
    requires { length verdicts.old ≡ length counts.now }
    ensures { VerdictsWritten counts.now verdicts.new }
{
    for (i, count) in counts.iter().enumerate() {
        verdicts[i] = count.unwrap_or(255);
    }
}

// The words taken out and decoded, in slices lent for that.
fn decode_interleaved(
    code: &StatedCode,
    m: usize,
    block: &[u8],
    words: &mut [u8],
    counts: &mut [Option<u8>],
    out: &mut [u8],
    verdicts: &mut [u8],
)
    requires { BlockReceivable code.now.n m block.now out.old verdicts.old × (length words.old ≡ m * bytes_for code.now.n) × (length counts.old ≡ m) × (code.now.certificate.terms < 1024) × (code.now.n ≤ 127) }
    ensures { BlockDecoded code.now.n code.now.t code.now.representatives.now m block.now out.old verdicts.old (returned (0 ∷ []), (out.new, verdicts.new)) }
{
    let size = bytes_for(code.n);
    deinterleave(m, size, block, words);
    decode_words(code, code.n, size, words, out, counts);
    write_verdicts(counts, verdicts);
}

// Refusals 11 and 12, and both buffers where none is drawn.
pub fn decode_block_accepted(
    code: &StatedCode,
    m: usize,
    block: &[u8],
    out: &mut [u8],
    verdicts: &mut [u8],
) -> Result<usize, Refusal>
    requires { (code.now.certificate.terms < 1024) × (code.now.n ≤ 127) × (2 ≤ m) × (m ≤ 16) }
    ensures { BlockDecoded code.now.n code.now.t code.now.representatives.now m block.now out.old verdicts.old (replied_as result, (out.new, verdicts.new)) }
{
    let size = bytes_for(code.n);
    if block.len() != bytes_for(code.n * m) {
        return Err(Refusal::BufferLength);
    }
    if out.len() != m * size {
        return Err(Refusal::BufferLength);
    }
    if verdicts.len() != m {
        return Err(Refusal::BufferLength);
    }
    if Word::spare(code.n * m, block) {
        return Err(Refusal::SpareBit);
    }
    let mut words = [0u8; 256];
    let mut counts = [None; 16];
    decode_interleaved(
        code,
        m,
        block,
        &mut words[..m * size],
        &mut counts[..m],
        out,
        verdicts,
    );
    Ok(0)
}
