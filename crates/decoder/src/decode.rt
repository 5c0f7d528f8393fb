// Decoding a word of the code that an accepted sheet states: the page that says how it goes.
//
// A received word r is a codeword c with places changed. c is 0 at α^i for every i of D, so r has there the value of the changes.
// 1. Values (syndrome): r at α to each representative. All 0: r is a codeword, and the answer. Else the other values of D follow by
//    squaring, since r(x^2) = r(x)^2 over two elements.
// 2. Syndromes (syndrome): aj·r(α^(b + j·z)) for j below L, aj being the terms of the certificate's h/f. They are the first
//    coefficients of a fraction whose denominator is the locator, the product of f(α^(i·z) x) over the wrong places i (document 001).
// 3. Euclid (poly) on x^L and the syndromes, until a remainder has at most L - t·u coefficients. If at most t places are wrong, the
//    cofactor is the locator up to a constant; if not, it is some polynomial.
// 4. Places (locator): those whose factor f(α^(i·z) x) divides the cofactor.
// 5. The last test: at most t places, with the value of r at each representative. Only then is r with them changed a codeword within t
//    places, and the bytes are written (repair.rt); and if a codeword is within t places, these are the places in which it differs.
//    Else the answer is 13.
// A word of a shortened code is one with 0 in the places that are not sent. Where a codeword of it is within t places, it is the only codeword
// that is; so what 1 to 5 find is it, or reaches into those places (`reaches` of repair.rt), and then the answer is 13. A shorter word has fewer
// columns, and no buffer but the output is filled.
// Cost: some R·n/4 + L·t·u + n·t·u table reads for n places, R representatives and f of degree u. No pattern of errors is tried.
ghost use Rattle.std.specs.Prelude.{◌<◌, ◌≤◌};
ghost use Rattle.document.specs.Answer.{replied_as};
ghost use Rattle.decoder.specs.Decode.{Decoded};

use crate::stated::StatedCode;
use crate::tables::decode_word;
use codeword::layout::{Layout, Word, bytes_for};
use document::types::Refusal;

// Refusals 11, 12 and 13, and the corrected word where none is drawn. Of the n places so many are sent: all of them, or those of a shortened
// code, whose codewords are the ones that have 0 above.
pub fn decode_accepted(
    code: &StatedCode,
    sent: usize,
    word: &[u8],
    out: &mut [u8],
) -> Result<usize, Refusal>
    requires { (code.now.certificate.terms < 1024) × (code.now.n ≤ 127) × (1 ≤ sent) × (sent ≤ code.now.n) }
    ensures { Decoded code.now.n sent code.now.t code.now.representatives.now word.now out.old out.new (replied_as result) }
{
    if word.len() != bytes_for(sent) {
        return Err(Refusal::BufferLength);
    }
    if out.len() != bytes_for(sent) {
        return Err(Refusal::BufferLength);
    }
    if Word::spare(sent, word) {
        return Err(Refusal::SpareBit);
    }
    let count = decode_word(code, sent, word, out).ok_or(Refusal::NoneNear)?;
    Ok(usize::from(count))
}
