// Checksums over the elements of a degree: powers of 2, logarithms, inverses.
ghost use Rattle.std.specs.Prelude.{◌≡◌, ◌-◌, ◌^◌};
ghost use Rattle.field.specs.Field.{Degree, order_of_two};

use crate::checksum::{Checksum, size};
use field::tables::FieldTables;

// The powers once round: 2^s - 1 of them.
pub fn powers(tables: &FieldTables) -> Checksum {
    let mut sum = Checksum::new();
    for x in &tables.powers[..field::product::order(tables.s)] {
        sum = sum.with(*x);
    }
    sum
}

// The logarithms of all elements but 0.
#[tactic(auto, using(field::proofs::Products::log_lt))]
pub fn logs(tables: &FieldTables) -> Checksum {
    let mut sum = Checksum::new();
    for a in 1..size(tables.s) {
        sum = sum.with(tables.log(a) as u16);
    }
    sum
}

// An absent inverse counts as 2^s, which is no element.
pub fn inverses(tables: &FieldTables) -> Checksum {
    let end = size(tables.s);
    let mut sum = Checksum::new();
    for a in 0..end {
        sum = sum.with(tables.inverse(a).unwrap_or(end));
    }
    sum
}

// The order of 2 for the length 2^s - 1: s itself.
pub fn order(s: usize) -> usize
    requires { Degree s }
    ensures { result ≡ order_of_two (2 ^ s - 1) }
{
    field::order::order_of_two(field::product::order(s))
}
