// Decoding: the codeword within t places of a received word, or that there is none; of a shortened code too.
ghost use Rattle.std.specs.Prelude.{◌≡◌};
ghost use Rattle.document.specs.Answer.{replied_as};
ghost use Rattle.document.specs.Short.{decode_of, decode_shortened_of};
ghost use Rattle.code.specs.Stating.{decode_for};

use crate::judged::accept;
use crate::shortening::unsent_places;
use decoder::decode::decode_accepted;
use document::types::Refusal;

// By the whole code, or by it shortened by m.
fn decode_by(
    sheet: &[u8],
    shortening: Option<usize>,
    word: &[u8],
    out: &mut [u8],
) -> Result<usize, Refusal>
    ensures { (replied_as result, out.new) ≡ decode_for shortening sheet.now word.now out.old }
{
    let mut room = [0u16; 32];
    let accepted = accept(sheet, &mut room)?;
    let unsent = unsent_places(shortening, accepted.numbers.k as usize)?;
    let code = accepted.stated_code();
    decode_accepted(&code, code.n - unsent, word, out)
}

// The corrected word into out; the number of changed places.
pub fn decode(sheet: &[u8], word: &[u8], out: &mut [u8]) -> Result<usize, Refusal>
    ensures { (replied_as result, out.new) ≡ decode_of sheet.now word.now out.old }
{
    decode_by(sheet, None, word, out)
}

// The same for a code shortened by m, of whose words n - m places are sent.
pub fn decode_short(sheet: &[u8], m: usize, word: &[u8], out: &mut [u8]) -> Result<usize, Refusal>
    ensures { (replied_as result, out.new) ≡ decode_shortened_of sheet.now m word.now out.old }
{
    decode_by(sheet, Some(m), word, out)
}
