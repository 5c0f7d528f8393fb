// The test for a codeword.
ghost use Rattle.std.specs.Prelude.{◌≡◌, ◌*◌, ◌≤◌, length};
ghost use Rattle.document.specs.Layout.{bytes_for};
ghost use Rattle.codeword.specs.Codewords.{RemainderTested};

use crate::code::CyclicCode;
use crate::layout::Word;
use crate::remainder::{make_feedback, take_places};
use binary::packed::is_zero;

// Whether a word of so many places, with zeros above up to n, is no codeword: with all its places taken in, the register, of W numbers of
// 64 bits, does not hold 0.
pub fn no_codeword<const W: usize>(code: &CyclicCode, sent: usize, word: &[u8]) -> bool
    requires { (code.now.n ≤ 64 * W) × (W ≤ 1023) × (sent ≤ code.now.n) × (length word.now ≡ bytes_for sent) }
    ensures { RemainderTested code.now.n sent code.now.representatives.now word.now result }
{
    let mut feedback = [0u64; W];
    let mut register = [0u64; W];
    make_feedback(
        code.representatives,
        code.n,
        code.n - code.k,
        code.s,
        &mut feedback,
        &mut register,
    );
    take_places::<Word>(word, sent, &feedback, &mut register);
    !is_zero(&register)
}
