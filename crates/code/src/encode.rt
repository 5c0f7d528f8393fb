// Encoding: 11 and 12 for an accepted sheet, then the message in the high places and the remainder below; of a shortened code too.
ghost use Rattle.std.specs.Prelude.{◌≡◌, [], ◌≤◌, ◌<◌};
ghost use Rattle.document.specs.Answer.{replied_as};
ghost use Rattle.document.specs.Shortened.{encode_shortened_entry};
ghost use Rattle.document.specs.Short.{encode_of, encode_shortened_of};
ghost use Rattle.code.specs.Stating.{Stating, encode_for};

use crate::judged::accept;
use crate::shortening::unsent_places;
use codeword::code::CyclicCode;
use codeword::layout::{Layout, Message, bytes_for};
use codeword::write::write_codeword;
use document::types::Refusal;

// Refusals 11 and 12, and the codeword where none is drawn; it returns 0, as encode_of has it. The top places that are not sent, and as many top bits of the message, are 0.
// It keeps a frame of its own, so that judging does not stand over its arrays.
#[inline(never)]
fn encode_accepted(
    code: &CyclicCode,
    unsent: usize,
    message: &[u8],
    out: &mut [u8],
) -> Result<usize, Refusal>
    requires { (code.now.n ≤ 127) × (unsent < code.now.k) }
    ensures { Stating code.now.n code.now.representatives.now (λ x. encode_shortened_entry [] unsent x message.now out.old) (replied_as result, out.new) }
{
    let bits = code.k - unsent;
    if message.len() != bytes_for(bits) {
        return Err(Refusal::BufferLength);
    }
    if out.len() != bytes_for(code.n - unsent) {
        return Err(Refusal::BufferLength);
    }
    if Message::spare(bits, message) {
        return Err(Refusal::SpareBit);
    }
    write_codeword::<2>(code, bits, message, out);
    Ok(0)
}

// By the whole code, or by it shortened by m. Encoding, reading and decoding begin with the same lines: a function that took the step as a
// closure would be longer.
fn encode_by(
    sheet: &[u8],
    shortening: Option<usize>,
    message: &[u8],
    out: &mut [u8],
) -> Result<usize, Refusal>
    ensures { (replied_as result, out.new) ≡ encode_for shortening sheet.now message.now out.old }
{
    let mut room = [0u16; 32];
    let accepted = accept(sheet, &mut room)?;
    let unsent = unsent_places(shortening, accepted.numbers.k as usize)?;
    encode_accepted(&accepted.code(), unsent, message, out)
}

// The codeword of a message into out.
pub fn encode(sheet: &[u8], message: &[u8], out: &mut [u8]) -> Result<usize, Refusal>
    ensures { (replied_as result, out.new) ≡ encode_of sheet.now message.now out.old }
{
    encode_by(sheet, None, message, out)
}

// The same for a code shortened by m: of a message of k - m bits, the n - m places of its codeword that are sent.
pub fn encode_short(
    sheet: &[u8],
    m: usize,
    message: &[u8],
    out: &mut [u8],
) -> Result<usize, Refusal>
    ensures { (replied_as result, out.new) ≡ encode_shortened_of sheet.now m message.now out.old }
{
    encode_by(sheet, Some(m), message, out)
}
