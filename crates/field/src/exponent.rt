// Powers of ω whose exponent is a product: the table is read with no division.
ghost use Rattle.std.specs.Prelude.{◌≡◌, ◌+◌, ◌-◌, ◌*◌, ◌/◌, ◌%◌, ◌^◌, ◌<◌};
ghost use Rattle.field.specs.Field.{Degree, ω, field_power};

use crate::product::order;
use crate::tables::PowerTable;

// An exponent with its high part added to the low one: ω has order 2^s - 1, so the power is the same.
pub fn fold(y: usize, s: usize) -> usize
    requires { Degree s × (y < (2 ^ s - 1) * 2 ^ s) }
    ensures { (result ≡ y % 2 ^ s + y / 2 ^ s) × (result < 2 * (2 ^ s - 1)) }
{
    (y & order(s)) + (y >> s)
}

// Where ω^(l + i a) stands in the table, in its first two rounds: so the places after i, a further each, are there too.
pub fn index(l: u16, a: u16, i: usize, s: usize) -> usize
    requires { Degree s × (l < 2 ^ s - 1) × (a < 2 ^ s - 1) × (i < 2 ^ s - 1) }
    ensures { (result ≡ (l + i * a) % 2 ^ s + (l + i * a) / 2 ^ s) × (result < 2 * (2 ^ s - 1)) }
{
    fold(usize::from(l) + i * usize::from(a), s)
}

impl<'a> PowerTable<'a> {
    // ω^(l + i a)
    pub fn term(&self, l: u16, a: u16, i: usize) -> u16
        requires { (l < 2 ^ self.now.s - 1) × (a < 2 ^ self.now.s - 1) × (i < 2 ^ self.now.s - 1) }
        ensures { result ≡ field_power self.now.s ω (l + i * a) }
    {
        self.powers[index(l, a, i, self.s)]
    }
}
