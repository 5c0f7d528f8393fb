// Euclid's algorithm on two rows, an upper and a lower one. A row is a remainder with its cofactor.
ghost use Rattle.poly.specs.Key.{Solvable, Outcome};

use crate::division::reduce;
use crate::row::length_of;
use crate::types::{Locator, Row};
use field::tables::FieldTables;

// Euclid's algorithm on x^l, above, and what the lower slice holds, until a remainder has at most `stop` coefficients: its cofactor
// is what is asked for, and the locator up to a constant factor where at most t places are wrong. The rows take turns, so that
// nothing is copied.
pub fn euclid(
    tables: &FieldTables,
    upper: &mut [u16],
    lower: &mut [u16],
    lower_cofactor: &mut [u16],
    upper_cofactor: &mut [u16],
    l: usize,
    stop: usize,
) -> Locator
    requires { Solvable tables.now.s l stop upper.old lower.old lower_cofactor.old upper_cofactor.old }
    ensures { Outcome tables.now.s l stop lower.old result lower_cofactor.new upper_cofactor.new }
{
    upper[l] = 1;
    lower_cofactor[0] = 1;
    let lower_len = length_of(&lower[..l]);
    let mut upper = Row {
        remainder: upper,
        len: l + 1,
        cofactor: upper_cofactor,
        cofactor_len: 1,
    };
    let mut lower = Row {
        remainder: lower,
        len: lower_len,
        cofactor: lower_cofactor,
        cofactor_len: 1,
    };
    loop {
        if lower.len <= stop {
            return Locator::Lower(lower.cofactor_len);
        }
        upper.cofactor_len = lower.cofactor_len + upper.len - lower.len;
        reduce(tables, &mut upper, &lower.divisor());
        if upper.len <= stop {
            return Locator::Upper(upper.cofactor_len);
        }
        lower.cofactor_len = upper.cofactor_len + lower.len - upper.len;
        reduce(tables, &mut lower, &upper.divisor());
    }
}
