// What the encoder keeps: bits go into a register, the highest first, and only a remainder by the generator is held. The register is
// aligned to the top of its last number, so that what comes up to x^(n - k) leaves it by itself.
ghost use Rattle.std.specs.Prelude.{◌≡◌, ◌-◌, ◌*◌, ◌≤◌, length};
ghost use Rattle.document.specs.Layout.{mask_of};
ghost use Rattle.document.specs.Coset.{dimension};
ghost use Rattle.binary.specs.Packed.{packed, Taken};
ghost use Rattle.codeword.specs.Codewords.{Coded, Fresh, FeedbackMade};

use crate::layout::Layout;
use binary::packed::power_of_x;
use binary::register::take_bit;
use generator::generator::times_generator;

// The generator, of degree m, as the feedback of the register, which lends room for making it and holds 0 before and after. A code without
// messages has one too, so it takes no `CyclicCode`.
pub fn make_feedback(
    representatives: &[u16],
    n: usize,
    m: usize,
    s: usize,
    feedback: &mut [u64],
    register: &mut [u64],
)
    requires { Coded n s representatives.now × (m ≡ n - dimension n representatives.now) × Fresh n feedback.old register.old }
    ensures { FeedbackMade n representatives.now feedback.new register.new }
{
    let mut powers = [0u16; 255];
    let mut logs = [0u16; 256];
    power_of_x(feedback, 64 * feedback.len() - m);
    times_generator(
        representatives,
        n,
        s,
        feedback,
        register,
        &mut powers,
        &mut logs,
    );
}

// The first n places of a word or message into an empty register.
pub fn take_places<L: Layout>(bytes: &[u8], n: usize, feedback: &[u64], register: &mut [u64])
    requires { (n ≤ length bytes.now * 8) × (1 ≤ length register.old) × (length register.old ≡ length feedback.now) × (packed register.old ≡ 0) }
    ensures { Taken (mask_of L.weight n bytes.now) 0 feedback.now register.new }
{
    for i in (0..n).rev() {
        take_bit(register, feedback, u64::from(L::place(bytes, i)));
    }
}
