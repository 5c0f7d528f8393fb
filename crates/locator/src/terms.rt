// A locator's terms made ready: what the search adds up at each place, and the remainder of each term's power of x by f in two numbers of
// four lanes.
ghost use Rattle.std.specs.Prelude.{◌≡◌};
ghost use Rattle.locator.specs.Terms.{lanes as lanes_of, exponents_of, steps_of, low_of, high_of, TermsListable, TermsListed};

use binary::period::times_x;
use field::order::step;
use field::product::order;

// What the search adds up at each place, a power of ω: its exponent at place 0, and how much that grows from place to place.
#[derive(Clone, Copy)]
pub struct Term {
    pub exponent: u16,
    pub step: u16,
}

// The remainder of a term's power of x by f. These lie apart from the terms, since the search for f = 1 + x reads the terms alone, and since
// one struct of both would be 24 bytes in place of 20, and 1,024 of them 4 KB more of the stack that include/dunefork.h states.
#[derive(Clone, Copy)]
pub struct Lanes {
    pub low: u64,
    pub high: u64,
}

// The lowest four coefficients of y, 16 places apart.
fn four_lanes(y: usize) -> u64
    ensures { result ≡ lanes_of y }
{
    let a = (y % 2) as u64;
    let b = (y / 2 % 2) as u64;
    let c = (y / 4 % 2) as u64;
    let d = (y / 8 % 2) as u64;
    ((d * 65536 + c) * 65536 + b) * 65536 + a
}

// The terms of each coefficient after the first that is not 0: their number. `at` is the exponent k back, and y is x^k modulo f. It reads the
// logarithms alone, so it takes them and not the tables, which would ask for the powers too.
pub fn list_terms(
    s: usize,
    back: usize,
    f: usize,
    u: usize,
    locator: &[u16],
    logs: &[u16],
    terms: &mut [Term],
    lanes: &mut [Lanes],
) -> usize
    requires { TermsListable s back f u locator.now logs.now terms.old lanes.old }
    ensures { TermsListed s back f u locator.now (exponents_of terms.new) (steps_of terms.new) (low_of lanes.new) (high_of lanes.new) result }
{
    let end = order(s);
    // Each term is written at the next place, c, and counted where x is not 0: no branch, as in `note` of search.rt.
    let mut c: usize = 0;
    let mut at = back;
    let mut y = times_x(f, u, 1);
    for k in 1..locator.len() {
        let x = locator[k];
        terms[c] = Term {
            exponent: logs[x as usize],
            step: at as u16,
        };
        lanes[c] = Lanes {
            low: four_lanes(y),
            high: four_lanes(y / 16),
        };
        c += usize::from(x != 0);
        at = step(end, at, back);
        y = times_x(f, u, y);
    }
    c
}
