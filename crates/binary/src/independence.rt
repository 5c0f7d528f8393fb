// Whether the first u powers of x^n, which are 1, x^n, .. x^((u-1)n), are linearly independent modulo a mask f of degree u: the exact test
// of rule 3. They stand as rows of 8 places in one number, and each row in turn is taken off those after it.
// `Modulus f u` stands in three contracts here: f and its degree come from one call, and a struct of the two would be taken apart in each.
ghost use Rattle.std.specs.Prelude.{◌≡◌, ◌^◌, ◌<◌};
ghost use Rattle.field.specs.Mask.{remainder as remainderOf};
ghost use Rattle.binary.specs.Factor.{Modulus};
ghost use Rattle.binary.specs.Independence.{independent as independentOf, PowersHeld, RowsStruck};

use crate::factor::degree;
use field::product::{times_modulo, times_x};

// x^n modulo f, by squares: the digits of n from the highest down.
fn power_modulo(f: u16, u: usize, n: usize) -> u16
    requires { Modulus f u × (0 < n) × (n < 65536) }
    ensures { result ≡ remainderOf u f (2 ^ n) }
{
    let mut r = times_x(f, u, 1);
    for i in (0..degree(n)).rev() {
        r = times_modulo(f, u, r, r);
        if (n >> i) % 2 == 1 {
            r = times_x(f, u, r);
        }
    }
    r
}

// 1, x^n, x^(2n), .. modulo f, u of them, as rows.
fn power_rows(f: u16, u: usize, n: usize) -> u64
    requires { Modulus f u × (0 < n) × (n < 65536) }
    ensures { PowersHeld u f n u result }
{
    let y = power_modulo(f, u, n);
    let mut rows: u64 = 1;
    let mut a = 1u16;
    for i in 1..u {
        a = times_modulo(f, u, a, y);
        rows += (a as u64) << (8 * i);
    }
    rows
}

// The rows after the first, with the first taken off those whose coefficient of x^top is 1.
fn strike_rows(rows: u64, top: usize) -> u64
    requires { top < 8 }
    ensures { RowsStruck top rows result }
{
    let ones = (rows >> top) & 0x0101010101010101;
    (rows ^ (ones * (rows % 256))) / 256
}

// The test: a row that is 0 when its turn comes is a sum of those before it.
pub fn independent(n: usize, f: usize, u: usize) -> bool
    requires { Modulus f u × (0 < n) × (n < 65536) }
    ensures { result ≡ independentOf n u f }
{
    let mut rows = power_rows(f as u16, u, n);
    for turn in 0..u {
        if rows % 256 == 0 {
            return false;
        }
        rows = strike_rows(rows, degree((rows % 256) as usize));
    }
    true
}
