// The code that an accepted sheet states, as decoding takes it.
ghost use Rattle.decoder.specs.Correct.{Given};

use sheet::types::Certificate;

// Its certificate at work keeps rules 1 to 4, and t is its radius. Fewer than 1,024 terms and n up to 127 stand in the contracts of those who own
// arrays of that size: `correct`, in lent slices, asks neither.
#[derive(Clone, Copy)]
pub struct StatedCode<'a> {
    pub n: usize,
    pub s: usize,
    pub t: usize,
    pub certificate: Certificate,
    pub representatives: &'a [u16],
    ghost given: { Given n s t certificate representatives.now },
}
