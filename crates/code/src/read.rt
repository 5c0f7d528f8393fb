// Reading out: 11, 12 and 14 for an accepted sheet, then the message in the high places of a codeword; of a shortened code too.
ghost use Rattle.std.specs.Prelude.{◌≡◌, [], ◌≤◌, ◌<◌};
ghost use Rattle.document.specs.Answer.{replied_as};
ghost use Rattle.document.specs.Shortened.{read_shortened_entry};
ghost use Rattle.document.specs.Short.{read_of, read_shortened_of};
ghost use Rattle.code.specs.Stating.{Stating, read_for};

use crate::judged::accept;
use crate::shortening::unsent_places;
use codeword::code::CyclicCode;
use codeword::layout::{Layout, Word, bytes_for};
use codeword::test::no_codeword;
use codeword::write::write_message;
use document::types::Refusal;

// Refusals 11, 12 and 14, and the message where none is drawn. The top places that are not sent, and as many top bits of the message, are 0.
// It keeps a frame of its own, so that judging does not stand over its arrays.
#[inline(never)]
fn read_accepted(
    code: &CyclicCode,
    unsent: usize,
    word: &[u8],
    out: &mut [u8],
) -> Result<usize, Refusal>
    requires { (code.now.n ≤ 127) × (unsent < code.now.k) }
    ensures { Stating code.now.n code.now.representatives.now (λ x. read_shortened_entry [] unsent x word.now out.old) (replied_as result, out.new) }
{
    let sent = code.n - unsent;
    let bits = code.k - unsent;
    if word.len() != bytes_for(sent) {
        return Err(Refusal::BufferLength);
    }
    if out.len() != bytes_for(bits) {
        return Err(Refusal::BufferLength);
    }
    if Word::spare(sent, word) {
        return Err(Refusal::SpareBit);
    }
    if no_codeword::<2>(code, sent, word) {
        return Err(Refusal::NoCodeword);
    }
    write_message(word, code.n - code.k, bits, out);
    Ok(0)
}

// By the whole code, or by it shortened by m.
fn read_by(
    sheet: &[u8],
    shortening: Option<usize>,
    word: &[u8],
    out: &mut [u8],
) -> Result<usize, Refusal>
    ensures { (replied_as result, out.new) ≡ read_for shortening sheet.now word.now out.old }
{
    let mut room = [0u16; 32];
    let accepted = accept(sheet, &mut room)?;
    let unsent = unsent_places(shortening, accepted.numbers.k as usize)?;
    read_accepted(&accepted.code(), unsent, word, out)
}

// The message of a codeword into out.
pub fn read(sheet: &[u8], word: &[u8], out: &mut [u8]) -> Result<usize, Refusal>
    ensures { (replied_as result, out.new) ≡ read_of sheet.now word.now out.old }
{
    read_by(sheet, None, word, out)
}

// The same for a code shortened by m: of the n - m places that were sent, the k - m bits of the message.
pub fn read_short(sheet: &[u8], m: usize, word: &[u8], out: &mut [u8]) -> Result<usize, Refusal>
    ensures { (replied_as result, out.new) ≡ read_shortened_of sheet.now m word.now out.old }
{
    read_by(sheet, Some(m), word, out)
}
