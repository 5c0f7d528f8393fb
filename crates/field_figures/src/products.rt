// Checksums of products, each product computed by shifts and masks and by the tables: all products of a degree, and
// those of a sample.
ghost use Rattle.std.specs.Prelude.{◌^◌, ◌<◌};
ghost use Rattle.field.specs.Field.{Degree};

use crate::checksum::{Checksum, size};
use field::tables::FieldTables;

#[derive(Clone, Copy)]
pub struct Sums {
    pub shifts: Checksum,
    pub tables: Checksum,
}

// Of no products.
fn none() -> Sums {
    Sums {
        shifts: Checksum::new(),
        tables: Checksum::new(),
    }
}

fn with_product(tables: &FieldTables, a: u16, b: u16, sums: Sums) -> Sums
    requires { (a < 2 ^ tables.now.s) × (b < 2 ^ tables.now.s) }
{
    Sums {
        shifts: sums.shifts.with(field::product::multiply(tables.s, a, b)),
        tables: sums.tables.with(tables.multiply(a, b)),
    }
}

// With the products of a with every element, rising.
fn with_row(tables: &FieldTables, a: u16, mut sums: Sums) -> Sums
    requires { a < 2 ^ tables.now.s }
{
    for b in 0..size(tables.s) {
        sums = with_product(tables, a, b, sums);
    }
    sums
}

pub fn all(tables: &FieldTables) -> Sums {
    let mut sums = none();
    for a in 0..size(tables.s) {
        sums = with_row(tables, a, sums);
    }
    sums
}

// The sample's generator, linear and congruential modulo 2^32. Its state starts at 1. bench_decode has the same `next`: a crate for
// one line would be no plainer.
fn next(x: u32) -> u32 {
    x.wrapping_mul(1664525).wrapping_add(1013904223)
}

// The element of a state: the lowest s bits of its upper half, since the lower bits of such a state repeat early.
fn element(s: usize, x: u32) -> u16
    requires { Degree s }
    ensures { result < 2 ^ s }
{
    (x >> 16) as u16 % size(s)
}

// 4,096 products: a from one state, b from the next, and so on.
pub fn sample(tables: &FieldTables) -> Sums {
    let mut sums = none();
    let mut x = 1;
    for _ in 0..4096 {
        let y = next(x);
        x = next(y);
        sums = with_product(tables, element(tables.s, y), element(tables.s, x), sums);
    }
    sums
}
