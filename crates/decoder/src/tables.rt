// The tables that decoding works with, by the field's degree: s up to 6, 8 or 12. They are filled once, for any number of words.
//
// As in arrays.rt each function that owns arrays keeps a frame of its own.
ghost use Rattle.std.specs.Prelude.{◌≡◌, ◌*◌, ◌^◌, ◌<◌, ◌≤◌, length};
ghost use Rattle.decoder.specs.Decode.{Receivable, Lined, verdict_as, Decoded, DecodedEach};

use crate::arrays::each_with_arrays;
use crate::stated::StatedCode;
use field::tables::FieldTables;

// Tables of so many powers and logarithms; arrays for the certificate's terms.
#[inline(never)]
fn with_tables<const POWERS: usize, const LOGS: usize>(
    code: &StatedCode,
    sent: usize,
    size: usize,
    words: &[u8],
    out: &mut [u8],
    verdicts: &mut [Option<u8>],
)
    requires { Lined code.now.n sent size (length verdicts.old) words.now out.old × (5 * 2 ^ code.now.s ≤ POWERS) × (2 ^ code.now.s ≤ LOGS) × (POWERS ≤ 20480) × (LOGS ≤ 4096) × (code.now.certificate.terms < 1024) × (code.now.n ≤ 127) }
    ensures { DecodedEach code.now.n sent code.now.t code.now.representatives.now size words.now out.old out.new verdicts.new }
{
    let mut powers = [0u16; POWERS];
    let mut logs = [0u16; LOGS];
    let tables = FieldTables::fill(code.s, &mut powers, &mut logs);
    if code.certificate.terms < 64 {
        each_with_arrays::<64>(code, sent, &tables, size, words, out, verdicts);
    } else {
        each_with_arrays::<1024>(code, sent, &tables, size, words, out, verdicts);
    }
}

// size, words, out and verdicts are handed down as they came: a struct of them would be opened in each_with_arrays alone.

// Words of `size` bytes one after the other, as many as there are verdicts, of which so many places are sent and the others are 0: each
// decoded into its own bytes of out, with its verdict.
pub fn decode_words(
    code: &StatedCode,
    sent: usize,
    size: usize,
    words: &[u8],
    out: &mut [u8],
    verdicts: &mut [Option<u8>],
)
    requires { Lined code.now.n sent size (length verdicts.old) words.now out.old × (code.now.certificate.terms < 1024) × (code.now.n ≤ 127) }
    ensures { DecodedEach code.now.n sent code.now.t code.now.representatives.now size words.now out.old out.new verdicts.new }
{
    if code.s <= 6 {
        with_tables::<320, 64>(code, sent, size, words, out, verdicts);
    } else if code.s <= 8 {
        with_tables::<1280, 256>(code, sent, size, words, out, verdicts);
    } else {
        with_tables::<20480, 4096>(code, sent, size, words, out, verdicts);
    }
}

// One word: its codeword within t places that has 0 in those that are not sent into out, and the number of changed places; or None, and out
// as it was, where there is none.
pub fn decode_word(code: &StatedCode, sent: usize, word: &[u8], out: &mut [u8]) -> Option<u8>
    requires { Receivable code.now.n sent word.now out.old × (code.now.certificate.terms < 1024) × (code.now.n ≤ 127) }
    ensures { Decoded code.now.n sent code.now.t code.now.representatives.now word.now out.old out.new (verdict_as result) }
{
    let mut verdicts = [None; 1];
    decode_words(code, sent, word.len(), word, out, &mut verdicts);
    verdicts[0]
}
