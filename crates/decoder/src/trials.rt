// The trial words of a received word with marked places, and which of them is shown. The buffers come one by one, as the entry is lent them.
ghost use Rattle.std.specs.Prelude.{◌≡◌, ◌*◌, ◌≤◌, length};
ghost use Rattle.document.specs.Answer.{marked_as};
ghost use Rattle.decoder.specs.Marked.{TrialsWritten, marks_in, unmarked_in, measured_as, Measured, Weighable, Showable, OnesShown, TrialsShown};

use crate::repair::copy;
use document::types::{Refusal, Shown};

// The word with all marked bits 0, and after it the word with all marked bits 1.
pub fn write_trials(word: &[u8], marks: &[u8], trials: &mut [u8])
    requires { (length marks.now ≡ length word.now) × (length trials.old ≡ 2 * length word.now) }
    ensures { TrialsWritten word.now marks.now trials.new }
{
    let size = word.len();
    for j in 0..size {
        trials[j] = word[j] & !marks[j];
        trials[size + j] = word[j] | marks[j];
    }
}

// How many places are marked.
pub fn marked_count(marks: &[u8]) -> usize
    requires { length marks.now ≤ 65535 }
    ensures { result ≡ marks_in marks.now }
{
    let mut r = 0;
    for byte in marks {
        r += byte.count_ones() as usize;
    }
    r
}

// In how many unmarked places two words differ.
pub fn unmarked_differences(word: &[u8], marks: &[u8], other: &[u8]) -> usize
    requires { Weighable word.now marks.now other.now }
    ensures { result ≡ unmarked_in word.now marks.now other.now }
{
    let mut e = 0;
    for j in 0..word.len() {
        let byte = (word[j] ^ other[j]) & !marks[j];
        e += byte.count_ones() as usize;
    }
    e
}

// Whether a decoded trial word is the answer: it is a codeword, and 2·e + r is below d. Then e.
pub fn measure(
    d: usize,
    r: usize,
    verdict: Option<usize>,
    word: &[u8],
    marks: &[u8],
    decoded: &[u8],
) -> Option<usize>
    requires { Weighable word.now marks.now decoded.now × (r ≡ marks_in marks.now) }
    ensures { Measured d verdict word.now marks.now decoded.now (measured_as result) }
{
    verdict?;
    let e = unmarked_differences(word, marks, decoded);
    if 2 * e + r < d {
        return Some(e);
    }
    None
}

// The ones, where the zeros are not the answer.
fn show_ones(
    d: usize,
    r: usize,
    verdict: Option<usize>,
    word: &[u8],
    marks: &[u8],
    decoded: &[u8],
    zeros: &mut [u8],
    ones: &mut [u8],
) -> Result<Shown, Refusal>
    requires { Showable word.now marks.now decoded.now zeros.old ones.old × (r ≡ marks_in marks.now) }
    ensures { OnesShown word.now marks.now decoded.now zeros.old ones.old d verdict (marked_as result, (zeros.new, ones.new)) }
{
    let size = word.len();
    let Some(e) = measure(d, r, verdict, word, marks, &decoded[size..]) else {
        return Err(Refusal::NoneWithMarks);
    };
    copy(&decoded[..size], zeros);
    copy(&decoded[size..], ones);
    Ok(Shown {
        unmarked: e,
        trial: 1,
    })
}

// Both trial words are decoded. Shown are the zeros, where they are the answer, or else the ones; then both go into the lent buffers.
pub fn show(
    d: usize,
    zeros_verdict: Option<usize>,
    ones_verdict: Option<usize>,
    word: &[u8],
    marks: &[u8],
    decoded: &[u8],
    zeros: &mut [u8],
    ones: &mut [u8],
) -> Result<Shown, Refusal>
    requires { Showable word.now marks.now decoded.now zeros.old ones.old }
    ensures { TrialsShown word.now marks.now decoded.now zeros.old ones.old d zeros_verdict ones_verdict (marked_as result, (zeros.new, ones.new)) }
{
    let size = word.len();
    let r = marked_count(marks);
    let Some(e) = measure(d, r, zeros_verdict, word, marks, &decoded[..size]) else {
        return show_ones(d, r, ones_verdict, word, marks, decoded, zeros, ones);
    };
    copy(&decoded[..size], zeros);
    copy(&decoded[size..], ones);
    Ok(Shown {
        unmarked: e,
        trial: 0,
    })
}
