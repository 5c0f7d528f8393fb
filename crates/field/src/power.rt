// Powers of elements, by squaring.
ghost use Rattle.std.specs.Prelude.{◌≡◌, ◌%◌, ◌^◌, ◌<◌};
ghost use Rattle.field.specs.Field.{Degree, field_multiply, field_power};

use crate::product::multiply;

// r x where e is odd, and else r: the factor that e's lowest digit asks for.
fn with_factor(s: usize, r: u16, x: u16, e: usize) -> u16
    requires { Degree s × (r < 2 ^ s) × (x < 2 ^ s) }
    ensures { result ≡ field_multiply s r (field_power s x (e % 2)) }
{
    if e % 2 == 1 { multiply(s, r, x) } else { r }
}

// a^k by squaring: r x^e stays what is asked for.
pub fn power(s: usize, a: u16, k: usize) -> u16
    requires { Degree s × (a < 2 ^ s) }
    ensures { result ≡ field_power s a k }
{
    let mut r = 1u16;
    let mut x = a;
    let mut e = k;
    while e > 0 {
        r = with_factor(s, r, x, e);
        x = multiply(s, x, x);
        e /= 2;
    }
    r
}
