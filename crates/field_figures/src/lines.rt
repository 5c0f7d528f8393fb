// The lines of figures. `Degree s` stands in the contracts as in the field's product.rt.
ghost use Rattle.field.specs.Field.{Degree};

use crate::checksum::Checksum;
use crate::products::Sums;
use crate::{elements, products, walk};
use field::order::order_of_two;
use field::product::mask;
use field::tables::FieldTables;
use std::io;

// All products where there are few enough, else those of the sample.
fn product_sums(s: usize) -> Sums
    requires { Degree s }
{
    let mut powers = [0u16; 20475];
    let mut logs = [0u16; 4096];
    let tables = FieldTables::fill(s, &mut powers, &mut logs);
    if s <= 8 {
        products::all(&tables)
    } else {
        products::sample(&tables)
    }
}

pub fn product_line(rt: &impl Print, s: usize) -> io::Result<()>
    requires { Degree s }
{
    let Sums { shifts, tables } = product_sums(s);
    println!(rt;
        "degree {s} mask {} products {shifts} tables {tables}",
        mask(s)
    )
}

#[derive(Clone, Copy)]
struct TableSums {
    powers: Checksum,
    logs: Checksum,
    inverses: Checksum,
}

fn table_sums(s: usize) -> TableSums
    requires { Degree s }
{
    let mut powers = [0u16; 20475];
    let mut logs = [0u16; 4096];
    let tables = FieldTables::fill(s, &mut powers, &mut logs);
    TableSums {
        powers: elements::powers(&tables),
        logs: elements::logs(&tables),
        inverses: elements::inverses(&tables),
    }
}

pub fn element_line(rt: &impl Print, s: usize) -> io::Result<()>
    requires { Degree s }
{
    let TableSums {
        powers,
        logs,
        inverses,
    } = table_sums(s);
    let order = elements::order(s);
    println!(rt; "degree {s} powers {powers} logs {logs} inverses {inverses} order {order}")
}

pub fn polynomial_line(rt: &impl Print, s: usize) -> io::Result<()>
    requires { Degree s }
{
    let m = mask(s);
    let counts = walk::below(s, m);
    let own = u64::from(walk::primitive(s, m));
    println!(rt;
        "degree {s} smaller {} primitive {} own {own}",
        counts.masks, counts.primitive
    )
}

// The order of 2 for every odd length from 3 to 127.
#[tactic(auto, using(field::proofs::OrderOfTwo::order_lt))]
fn length_sum() -> Checksum {
    let mut sum = Checksum::new();
    for i in 1..64 {
        sum = sum.with(order_of_two(2 * i + 1) as u16);
    }
    sum
}

pub fn length_line(rt: &impl Print) -> io::Result<()> {
    println!(rt; "lengths {}", length_sum())
}
