// Decoding a block that carries m words, place j of word i being bit j·m + i: for each word the codeword within t places, or that there is
// none. Of m·t neighbouring bits at most t are of one word.
ghost use Rattle.std.specs.Prelude.{◌≡◌, ◌||◌, ltb};
ghost use Rattle.document.specs.Answer.{replied_as};
ghost use Rattle.document.specs.Short.{decode_block_of};

use crate::judged::accept;
use decoder::block::decode_block_accepted;
use document::types::Refusal;

// Whether m is outside 2 to 16.
fn wrong_depth(m: usize) -> bool
    ensures { result ≡ ltb m 2 || ltb 16 m }
{
    m < 2 || 16 < m
}

// Each corrected word into its own bytes of out, and a verdict for each: the number of its changed places, or 255 where no codeword is near,
// and then its bytes of out are as they were.
pub fn decode_block(
    sheet: &[u8],
    m: usize,
    block: &[u8],
    out: &mut [u8],
    verdicts: &mut [u8],
) -> Result<usize, Refusal>
    ensures { (replied_as result, (out.new, verdicts.new)) ≡ decode_block_of sheet.now m block.now out.old verdicts.old }
{
    let mut room = [0u16; 32];
    let accepted = accept(sheet, &mut room)?;
    if wrong_depth(m) {
        return Err(Refusal::InterleavingDepth);
    }
    decode_block_accepted(&accepted.stated_code(), m, block, out, verdicts)
}
