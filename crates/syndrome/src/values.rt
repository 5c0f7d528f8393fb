// A word's values at the powers of α: at the representatives, and from there along their cosets, since the value at a square is the
// square of the value.
// n, representatives and tables come one by one: the struct that has the first two is the decoder's, above.
ghost use Rattle.std.specs.Prelude.{◌≡◌};
ghost use Rattle.codeword.specs.Place.{places_of};
ghost use Rattle.syndrome.specs.Value.{Conjugable, Conjugated, Computable, Computed, ValuesTested, Extendable, Extended};

use crate::columns::{fill_columns, value_by_columns};
use field::order::twice;
use field::product::order;
use field::tables::FieldTables;

// From the value v at α^r those at its conjugates α^(2r), α^(4r), .. in s turns.
pub fn conjugates(n: usize, r: usize, v: u16, tables: &FieldTables, values: &mut [u16])
    requires { Conjugable n tables.now.s r v values.old }
    ensures { Conjugated n tables.now.s r v values.old values.new }
{
    let mut x = r;
    let mut y = v;
    for _j in 0..tables.s {
        values[x] = y;
        x = twice(n, x);
        y = tables.multiply(y, y);
    }
}

// The values of a word at the representatives, and whether it is a codeword: whether all are 0. Its columns are filled on the way. Places
// past its last byte are 0.
pub fn evaluate(
    word: &[u8],
    n: usize,
    representatives: &[u16],
    tables: &FieldTables,
    columns: &mut [u64],
    values: &mut [u16],
) -> bool
    requires { Computable n tables.now.s (places_of word.now) representatives.now columns.old values.old }
    ensures { Computed n tables.now.s (places_of word.now) representatives.now values.new × ValuesTested n (places_of word.now) representatives.now result }
{
    let width = word.len() * 2;
    let columns = &mut columns[..width];
    fill_columns(word, columns);
    let q = order(tables.s) / n;
    let mut clean = true;
    for representative in representatives {
        let r = *representative as usize;
        let v = value_by_columns(columns, (r * q) as u16, tables);
        clean &= v == 0;
        values[r] = v;
    }
    clean
}

// The values at α^i for every i of D, from those at the representatives.
pub fn extend(n: usize, representatives: &[u16], tables: &FieldTables, values: &mut [u16])
    requires { Extendable n tables.now.s representatives.now values.old }
    ensures { Extended n tables.now.s representatives.now values.old values.new }
{
    for representative in representatives {
        let r = *representative as usize;
        let v = values[r];
        conjugates(n, r, v, tables, values);
    }
}
