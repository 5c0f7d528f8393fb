// The arrays that correcting a word works in, by the certificate's terms: polynomials of 64 or of 1,024 coefficients; and words decoded one
// after the other in such arrays, with tables that are lent. Clearing large arrays costs more than correcting a short code's word.
//
// The arrays of each size are a frame of their own, so that a code takes stack for its own size alone: `each_with_arrays` is joined with
// `with_arrays`, which owns them, and never with its caller. tools/stack fails if a large frame is joined with another.
ghost use Rattle.std.specs.Prelude.{◌≡◌, ◌<◌, ◌≤◌, length};
ghost use Rattle.decoder.specs.Decode.{Receivable, Lined, verdict_as, Decoded, DecodedEach};

use crate::correct::{Workspace, correct};
use crate::repair::{reaches, repair};
use crate::stated::StatedCode;
use field::tables::FieldTables;
use locator::terms::{Lanes, Term};

// One word, up to TERMS - 1 terms: the corrected word into out, and the number of changed places; or None where no codeword is near whose
// places from `sent` on are 0.
fn with_arrays<const TERMS: usize>(
    code: &StatedCode,
    sent: usize,
    tables: &FieldTables,
    word: &[u8],
    out: &mut [u8],
) -> Option<u8>
    requires { (tables.now.s ≡ code.now.s) × Receivable code.now.n sent word.now out.old × (code.now.certificate.terms < TERMS) × (TERMS ≤ 1024) × (code.now.n ≤ 127) }
    ensures { Decoded code.now.n sent code.now.t code.now.representatives.now word.now out.old out.new (verdict_as result) }
{
    let mut places = [0u16; 128];
    let mut columns = [0u64; 32];
    let mut values = [0u16; 128];
    let mut upper = [0u16; TERMS];
    let mut lower = [0u16; TERMS];
    let mut lower_cofactor = [0u16; TERMS];
    let mut upper_cofactor = [0u16; TERMS];
    let mut terms = [Term {
        exponent: 0,
        step: 0,
    }; TERMS];
    let mut lanes = [Lanes { low: 0, high: 0 }; TERMS];
    let workspace = Workspace {
        columns: &mut columns,
        values: &mut values,
        upper: &mut upper,
        lower: &mut lower,
        lower_cofactor: &mut lower_cofactor,
        upper_cofactor: &mut upper_cofactor,
        terms: &mut terms,
        lanes: &mut lanes,
    };
    let m = correct(code, tables, workspace, &mut places, word)?;
    let changed = &places[..m];
    if reaches(changed, sent) {
        return None;
    }
    repair(word, changed, out);
    Some(m as u8)
}

// Words one after the other, up to TERMS - 1 terms: each decoded into its own bytes of out. They lie in one buffer each, as C lends them. That
// the tables are of the code's s is said where both are handed over: a struct of the two would be built for one call.
#[inline(never)]
pub fn each_with_arrays<const TERMS: usize>(
    code: &StatedCode,
    sent: usize,
    tables: &FieldTables,
    size: usize,
    words: &[u8],
    out: &mut [u8],
    verdicts: &mut [Option<u8>],
)
    requires { (tables.now.s ≡ code.now.s) × Lined code.now.n sent size (length verdicts.old) words.now out.old × (code.now.certificate.terms < TERMS) × (TERMS ≤ 1024) × (code.now.n ≤ 127) }
    ensures { DecodedEach code.now.n sent code.now.t code.now.representatives.now size words.now out.old out.new verdicts.new }
{
    for k in 0..verdicts.len() {
        let start = k * size;
        let end = start + size;
        verdicts[k] = with_arrays::<TERMS>(
            code,
            sent,
            tables,
            &words[start..end],
            &mut out[start..end],
        );
    }
}
