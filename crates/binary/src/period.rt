// The period of a mask f: the smallest p above 0 for which f divides x^p + 1.
ghost use Rattle.std.specs.Prelude.{◌≡◌, ◌*◌, ◌^◌, ◌<◌};
ghost use Rattle.field.specs.Mask.{remainder as remainderOf};
ghost use Rattle.binary.specs.Factor.{period as periodOf, Modulus};

// x a modulo f: one shift, and f taken off where the coefficient of x^u came up. field::product::times_x is the same over u16, and is
// another function for speed: by it the period of a mask of degree 8 takes 378 ns, and by this one 153; by this one the field's tables of
// degree 12 fill in 5.7 µs, and by that one in 5.0. One generic function would ask for a trait of both numbers' shifts with its laws, and be longer
// than both.
pub fn times_x(f: usize, u: usize, a: usize) -> usize
    requires { Modulus f u × (a < 2 ^ u) }
    ensures { result ≡ remainderOf u f (a * 2) }
{
    let d = a * 2;
    if (d >> u) % 2 == 1 { d ^ f } else { d }
}

// a goes through x, x^2, x^3, .. modulo f, and p counts, until a is 1.
pub fn period(f: usize, u: usize) -> usize
    requires { Modulus f u }
    ensures { result ≡ periodOf f }
{
    let mut p: usize = 1;
    let mut a = times_x(f, u, 1);
    while a != 1 {
        a = times_x(f, u, a);
        p += 1;
    }
    p
}
