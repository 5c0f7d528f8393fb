// The checksum of a row of values, and how many elements a field has.
ghost use Rattle.std.specs.Prelude.{◌≡◌, ◌^◌, ◌<◌};
ghost use Rattle.field.specs.Field.{Degree};

use std::fmt;

// The modulus is the largest prime below 2^32, so that no product wraps.
#[derive(Clone, Copy)]
pub struct Checksum {
    value: u64,
    ghost below_modulus: { value < 4294967291 },
}

impl Checksum {
    // Of no values.
    pub fn new() -> Checksum {
        Checksum { value: 0 }
    }

    // With one value more.
    pub fn with(self, x: u16) -> Checksum {
        Checksum {
            value: (self.value * 1000003 + u64::from(x)) % 4294967291,
        }
    }
}

impl fmt::Display for Checksum {
    fn fmt<W: fmt::Write>(&self, f: &mut fmt::Formatter<W>) -> fmt::Result {
        self.value.fmt(f)
    }
}

pub fn size(s: usize) -> u16
    requires { Degree s }
    ensures { (result ≡ 2 ^ s) × (0 < result) }
{
    1 << s
}
