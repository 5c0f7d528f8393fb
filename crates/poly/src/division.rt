// Division with remainder, the cofactors kept in step: leading terms cancelled, one or two at a time. A row is a remainder with its
// cofactor; what is added to one is added to the other. Lengths are numbers of coefficients. `RowReducible` stands in each contract: it is a
// fact of two rows and the field's degree, and a row, which is written through its `&mut`s, can carry none.
ghost use Rattle.std.specs.Prelude.{◌≡◌, ◌≢◌, ◌-◌, ◌*◌, ◌^◌, ◌<◌, ◌≤◌, get_or};
ghost use Rattle.poly.specs.Division.{Second, RowReducible, RowReduced, Kept, InverseAt};

use crate::row::{add_scaled, add_two};
use crate::types::{Divisor, Row};
use field::tables::FieldTables;

// One term of the quotient: the multiple of the divisor's row that takes the dividend's leading coefficient away is added to the
// dividend's row. The divisor's leading coefficient is not 0, so the quotient is there.
fn cancel_leading(tables: &FieldTables, dividend: &mut Row, divisor: &Divisor)
    requires { RowReducible tables.now.s dividend.old divisor.now × (divisor.now.len ≤ dividend.old.len) }
    ensures kept { Kept dividend.old dividend.new }
    ensures shorter { dividend.new.len < dividend.old.len }
    ensures reduced { RowReduced tables.now.s dividend.old divisor.now dividend.new }
{
    let len = dividend.len;
    let i = len - divisor.len;
    let lead = divisor.remainder[divisor.len - 1];
    let Some(x) = tables.divide(dividend.remainder[len - 1], lead) else {
        return;
    };
    let q = tables.log(x);
    add_scaled(
        tables,
        dividend.remainder,
        i,
        q,
        &divisor.remainder[..divisor.len],
    );
    add_scaled(
        tables,
        dividend.cofactor,
        i,
        q,
        &divisor.cofactor[..divisor.cofactor_len],
    );
    dividend.len = dividend.length_below(len - 1);
}

// The second coefficient from the top after ω^k x^i times the divisor is added, i being by how much it is shorter: a second term of
// the quotient takes it away. It is 0 also where only one term is taken: both are equally long, or the divisor is a constant.
fn second_leading(tables: &FieldTables, k: usize, dividend: &Row, divisor: &Divisor) -> u16
    requires { RowReducible tables.now.s dividend.now divisor.now × (divisor.now.len ≤ dividend.now.len) × (k ≤ 2 * (2 ^ tables.now.s - 1)) }
    ensures { result ≢ 0 → Second tables.now.s k dividend.now.len divisor.now.len dividend.now.remainder.now divisor.now.remainder.now result }
{
    if dividend.len == divisor.len || divisor.len < 2 {
        return 0;
    }
    dividend.remainder[dividend.len - 2] ^ tables.scaled(k, divisor.remainder[divisor.len - 2])
}

// Two terms of the quotient in one pass where there is a second one, and else one: in most divisions of Euclid's algorithm the
// dividend is longer by one, so that two are all. ω^k is the inverse of the divisor's leading coefficient.
pub fn cancel_terms(tables: &FieldTables, k: usize, dividend: &mut Row, divisor: &Divisor)
    requires { RowReducible tables.now.s dividend.old divisor.now × (divisor.now.len ≤ dividend.old.len)
        × InverseAt tables.now.s k (get_or divisor.now.remainder.now (divisor.now.len - 1) 0) }
    ensures kept { Kept dividend.old dividend.new }
    ensures shorter { dividend.new.len < dividend.old.len }
    ensures reduced { RowReduced tables.now.s dividend.old divisor.now dividend.new }
{
    let len = dividend.len;
    let k1 = tables.log(dividend.remainder[len - 1]) + k;
    let y = second_leading(tables, k1, dividend, divisor);
    if y == 0 {
        cancel_leading(tables, dividend, divisor);
        return;
    }
    let k0 = tables.log(y) + k;
    let i = len - divisor.len - 1;
    add_two(
        tables,
        dividend.remainder,
        i,
        k0,
        k1,
        &divisor.remainder[..divisor.len],
    );
    add_two(
        tables,
        dividend.cofactor,
        i,
        k0,
        k1,
        &divisor.cofactor[..divisor.cofactor_len],
    );
    dividend.len = dividend.length_below(len - 2);
}

// Euclid's step: the dividend's row to its remainder by the divisor's, and its length. A leading coefficient is not 0, so its inverse
// is there. How many coefficients the cofactor may have then is the caller's to say.
pub fn reduce(tables: &FieldTables, dividend: &mut Row, divisor: &Divisor)
    requires { RowReducible tables.now.s dividend.old divisor.now }
    ensures kept { Kept dividend.old dividend.new }
    ensures shorter { dividend.new.len < divisor.now.len }
    ensures reduced { RowReduced tables.now.s dividend.old divisor.now dividend.new }
{
    let Some(x) = tables.inverse(divisor.remainder[divisor.len - 1]) else {
        return;
    };
    let k = tables.log(x);
    while divisor.len <= dividend.len {
        cancel_terms(tables, k, dividend, divisor);
    }
}
