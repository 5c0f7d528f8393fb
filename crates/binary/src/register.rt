// The register of a division: it takes in bits and keeps only a remainder.
ghost use Rattle.std.specs.Prelude.{◌≡◌, ◌<◌, ◌≤◌, length};
ghost use Rattle.binary.specs.Packed.{BitTaken};

use crate::packed::double_add;

// One bit in: where the register holds p, a remainder by g of degree m, it holds that of x p + bit x^m. The coefficient that comes up
// to x^m leaves at the top, and g without its own x^m is taken off instead. The two slices come apart: codeword's make_feedback lends the
// register as room for the generator.
pub fn take_bit(register: &mut [u64], feedback: &[u64], bit: u64)
    requires { (1 ≤ length register.old) × (length register.old ≡ length feedback.now) × (bit < 2) }
    ensures { BitTaken bit feedback.now register.old register.new }
{
    let top = register[register.len() - 1] >> 63;
    double_add(
        register,
        feedback,
        (top * 18446744073709551615) ^ (bit * 18446744073709551615),
    );
}
