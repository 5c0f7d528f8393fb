// Decoding with marked places: the codeword with 2·e + r at most d - 1, e being the number of unmarked places in which it differs from
// the received word and r that of the marked ones; and the part of a trial buffer that holds it.
ghost use Rattle.std.specs.Prelude.{◌≡◌};
ghost use Rattle.document.specs.Answer.{marked_as};
ghost use Rattle.document.specs.Marked.{shown_of};
ghost use Rattle.document.specs.Short.{decode_marked_of};

use crate::judged::accept;
use decoder::marked::decode_marked_accepted;
use document::types::{Refusal, Shown};

// Both decoded trial words into the lent buffers; e, and which of them is the answer.
pub fn decode_marked(
    sheet: &[u8],
    word: &[u8],
    marks: &[u8],
    zeros: &mut [u8],
    ones: &mut [u8],
) -> Result<Shown, Refusal>
    ensures { (marked_as result, (zeros.new, ones.new)) ≡ decode_marked_of sheet.now word.now marks.now zeros.old ones.old }
{
    let mut room = [0u16; 32];
    let accepted = accept(sheet, &mut room)?;
    decode_marked_accepted(
        &accepted.stated_code(),
        accepted.numbers.d as usize,
        word,
        marks,
        zeros,
        ones,
    )
}

// The first n/8 bytes, rounded up, of the zeros' buffer for trial 0 and of the ones' for any other number, or all of a shorter one. It is
// a part of the lent buffer: nothing is copied.
pub fn shown<'a>(trial: usize, n: usize, zeros: &'a [u8], ones: &'a [u8]) -> &'a [u8]
    ensures { result.now ≡ shown_of trial n zeros.now ones.now }
{
    let is_first = trial == 0;
    let buffer = if is_first { zeros } else { ones };
    &buffer[..n.div_ceil(8).min(buffer.len())]
}
