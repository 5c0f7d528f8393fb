// Whether a polynomial of degree s is primitive, found with none of the field's code: by walking the powers of x.
ghost use Rattle.std.specs.Prelude.{◌≡◌, ◌-◌, ◌^◌, ◌<◌, ◌≤◌};
ghost use Rattle.field.specs.Field.{Degree};

use crate::checksum::size;

#[derive(Clone, Copy)]
pub struct Counts {
    pub masks: u64,
    pub primitive: u64,
}

// The next power of x: a shift, and the mask taken off where the coefficient of x^s came up. The field's `times_x` does the same, and is not
// called here: the walk is what the table's masks are held to.
fn step(s: usize, m: u16, x: u16) -> u16
    requires { s < 16 }
{
    let d = x << 1;
    if (d >> s) & 1 == 1 { d ^ m } else { d }
}

// Whether the powers of x come back to 1 after 2^s - 1 steps and not before.
pub fn primitive(s: usize, m: u16) -> bool
    requires { Degree s }
{
    let mut x = step(s, m, 1);
    for _ in 1..size(s) - 1 {
        if x == 1 {
            return false;
        }
        x = step(s, m, x);
    }
    x == 1
}

// The masks of degree s below a given one, and how many of them are primitive.
pub fn below(s: usize, end: u16) -> Counts
    requires { Degree s }
    ensures { (result.masks ≡ end - 2 ^ s) × (result.primitive ≤ result.masks) }
{
    let first = size(s);
    let mut found = 0u64;
    for m in first..end {
        found += u64::from(primitive(s, m));
    }
    Counts {
        masks: u64::from(end.saturating_sub(first)),
        primitive: found,
    }
}
