// Whether two masks have a common factor, by Euclid's algorithm.
ghost use Rattle.std.specs.Prelude.{◌≡◌, ◌+◌, ◌*◌, ◌^◌, ◌<◌, ◌≤◌};
ghost use Rattle.field.specs.Mask.{◌⊕◌, coefficient, remainder as remainderOf};
ghost use Rattle.binary.specs.Factor.{degree as degree_of, common as commonOf, Ratio};

use crate::factor::degree;

// A step of long division by b of degree s: x^i b is taken off where the coefficient of x^(s + i) is 1.
fn strike(r: usize, b: usize, s: usize, i: usize) -> usize
    requires { (b < 512) × (s + i ≤ 8) }
    ensures { result ≡ r ⊕ coefficient (s + i) r * (b * 2 ^ i) }
{
    if (r >> (s + i)) % 2 == 1 {
        r ^ (b << i)
    } else {
        r
    }
}

// The remainder of a by b, from the highest step down.
fn remainder(a: usize, b: usize) -> usize
    requires { (a < 512) × (2 ≤ b) × (b < 512) }
    ensures { result ≡ remainderOf (degree_of b) b a }
{
    let s = degree(b);
    let mut r = a;
    for i in (0..9 - s).rev() {
        r = strike(r, b, s, i);
    }
    r
}

// x and y keep the divisors that f and h have in common: at the end y is 0 and x divides both, or y is 1 and none does. factor::coprime
// is Euclid's algorithm on numbers; one function for both would ask for the remainder and its two laws, and be longer than this loop.
pub fn common(f: usize, h: usize) -> bool
    requires { Ratio f h }
    ensures { result ≡ commonOf f h }
{
    let mut x = f;
    let mut y = h;
    while y > 1 {
        let r = remainder(x, y);
        x = y;
        y = r;
    }
    y == 0
}
