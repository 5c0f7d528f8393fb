// A multiple of one polynomial added to another, in place; the length of a polynomial.
ghost use Rattle.std.specs.Prelude.{◌+◌, ◌*◌, ◌-◌, ◌^◌, ◌≤◌};
ghost use Rattle.poly.specs.Division.{Addable, Added, AddedTwo, LengthOf};

use field::tables::FieldTables;

// ω^k x^i times the addend added to the sum.
pub fn add_scaled(tables: &FieldTables, sum: &mut [u16], i: usize, k: usize, addend: &[u16])
    requires { Addable tables.now.s i k sum.old addend.now }
    ensures { Added tables.now.s i k sum.old addend.now sum.new }
{
    let tables = *tables;
    for (j, &x) in addend.iter().enumerate() {
        sum[i + j] ^= tables.scaled(k, x);
    }
}

// (ω^k1 x + ω^k0) x^i times the addend added to the sum: a coefficient is read once, and serves both terms. ω^k1 times the coefficient
// before waits in last.
pub fn add_two(
    tables: &FieldTables,
    sum: &mut [u16],
    i: usize,
    k0: usize,
    k1: usize,
    addend: &[u16],
)
    requires { Addable tables.now.s (i + 1) k1 sum.old addend.now × (k0 ≤ 2 * (2 ^ tables.now.s - 1)) }
    ensures { AddedTwo tables.now.s i k0 k1 sum.old addend.now sum.new }
{
    let tables = *tables;
    let mut last: u16 = 0;
    for (j, &x) in addend.iter().enumerate() {
        let y = tables.scaled(k0, x) ^ last;
        last = tables.scaled(k1, x);
        sum[i + j] ^= y;
    }
    sum[i + addend.len()] ^= last;
}

// One more than the degree, and 0 for the polynomial 0.
pub fn length_of(coefficients: &[u16]) -> usize
    ensures { LengthOf coefficients.now result }
{
    match coefficients.iter().rposition(|x| *x != 0) {
        Some(k) => k + 1,
        None => 0,
    }
}
