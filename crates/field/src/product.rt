// Document 01's table of masks, and products modulo a mask by shifts and masks alone.
// `Degree s` and `a < 2 ^ s` stand in the contracts here, in power.rt and in exponent.rt: a type for s would be opened at every shift, and one
// for an element would have to hold s, since the bound is of the field.
ghost use Rattle.std.specs.Prelude.{◌≡◌, ◌-◌, ◌*◌, ◌^◌, ◌<◌};
ghost use Rattle.field.specs.Mask.{clmul, remainder, HasDegree};
ghost use Rattle.field.specs.Field.{Degree, «mask» as tableMask, field_multiply};

// Document 01's table, indexed by degree from 2 on.
const MASKS: [u16; 11] = [7, 11, 19, 37, 67, 131, 285, 529, 1033, 2053, 4179];

pub fn mask(s: usize) -> u16
    requires { Degree s }
    ensures { result ≡ tableMask s }
{
    MASKS[s - 2]
}

// How many elements are not 0: the order of ω.
pub fn order(s: usize) -> usize
    requires { Degree s }
    ensures { result ≡ 2 ^ s - 1 }
{
    let end: usize = 1 << s;
    end - 1
}

// x a modulo a mask f of degree s: one shift, and f taken off where the coefficient of x^s came up.
pub fn times_x(f: u16, s: usize, a: u16) -> u16
    requires { HasDegree s f × (a < 2 ^ s) }
    ensures { result ≡ remainder s f (a * 2) }
{
    let d = a * 2;
    if (d >> s) % 2 == 1 { d ^ f } else { d }
}

// a b modulo f, by Horner's rule over the coefficients of a, from the highest down.
pub fn times_modulo(f: u16, s: usize, a: u16, b: u16) -> u16
    requires { HasDegree s f × (a < 2 ^ s) × (b < 2 ^ s) }
    ensures { result ≡ remainder s f (clmul a b) }
{
    let mut r = 0u16;
    for i in (0..s).rev() {
        r = times_x(f, s, r);
        if (a >> i) % 2 == 1 {
            r ^= b;
        }
    }
    r
}

// a b: the field's product is that modulo the mask of its degree.
pub fn multiply(s: usize, a: u16, b: u16) -> u16
    requires { Degree s × (a < 2 ^ s) × (b < 2 ^ s) }
    ensures { result ≡ field_multiply s a b }
{
    times_modulo(mask(s), s, a, b)
}
