// Decoding with marked places, for an accepted sheet.
//
// With r marks, two codewords that differ from the received word in e and in e' unmarked places differ from each other in at most
// e + e' + r places; so at most one has 2·e + r ≤ d - 1. Its marked places hold at most r/2 ones, or at most r/2 zeros: all marked bits
// set to 0, or to 1, leave at most e + r/2 ≤ t wrong places, and decoding finds it. So both trial words are decoded, with one set of
// tables, and the first that gives a codeword with 2·e + r ≤ d - 1 is shown. No lent buffer is touched before that is known.
ghost use Rattle.std.specs.Prelude.{◌≡◌, ◌*◌, ◌<◌, ◌≤◌, length};
ghost use Rattle.document.specs.Answer.{marked_as};
ghost use Rattle.decoder.specs.Marked.{Markable, MarkedDecoded};

use crate::repair::copy;
use crate::stated::StatedCode;
use crate::tables::decode_words;
use crate::trials::{show, write_trials};
use codeword::layout::{Layout, Word, bytes_for};
use document::types::{Refusal, Shown};

// Both trial words written and decoded, in slices lent for that, and the answer shown; or refusal 15.
fn decode_trials(
    code: &StatedCode,
    d: usize,
    word: &[u8],
    marks: &[u8],
    trials: &mut [u8],
    decoded: &mut [u8],
    zeros: &mut [u8],
    ones: &mut [u8],
) -> Result<Shown, Refusal>
    requires { Markable code.now.n word.now marks.now zeros.old ones.old × (length trials.old ≡ 2 * length word.now) × (length decoded.old ≡ 2 * length word.now) × (code.now.certificate.terms < 1024) × (code.now.n ≤ 127) }
    ensures { MarkedDecoded code.now.n code.now.t d code.now.representatives.now word.now marks.now zeros.old ones.old (marked_as result, (zeros.new, ones.new)) }
{
    let mut verdicts = [None; 2];
    write_trials(word, marks, trials);
    copy(trials, decoded);
    decode_words(code, code.n, word.len(), trials, decoded, &mut verdicts);
    show(
        d,
        verdicts[0].map(usize::from),
        verdicts[1].map(usize::from),
        word,
        marks,
        decoded,
        zeros,
        ones,
    )
}

// Refusals 11, 12 and 15, and both trial buffers where none is drawn. d is the distance of the certificate at work.
pub fn decode_marked_accepted(
    code: &StatedCode,
    d: usize,
    word: &[u8],
    marks: &[u8],
    zeros: &mut [u8],
    ones: &mut [u8],
) -> Result<Shown, Refusal>
    requires { (code.now.certificate.terms < 1024) × (code.now.n ≤ 127) }
    ensures { MarkedDecoded code.now.n code.now.t d code.now.representatives.now word.now marks.now zeros.old ones.old (marked_as result, (zeros.new, ones.new)) }
{
    let size = bytes_for(code.n);
    if word.len() != size {
        return Err(Refusal::BufferLength);
    }
    if marks.len() != size {
        return Err(Refusal::BufferLength);
    }
    if zeros.len() != size {
        return Err(Refusal::BufferLength);
    }
    if ones.len() != size {
        return Err(Refusal::BufferLength);
    }
    if Word::spare(code.n, word) {
        return Err(Refusal::SpareBit);
    }
    if Word::spare(code.n, marks) {
        return Err(Refusal::SpareBit);
    }
    let mut trials = [0u8; 32];
    let mut decoded = [0u8; 32];
    decode_trials(
        code,
        d,
        word,
        marks,
        &mut trials[..2 * size],
        &mut decoded[..2 * size],
        zeros,
        ones,
    )
}
