// Every place searched, and those listed at which the remainder of a locator by f vanishes: Chien's search, four places at a time, for
// f = 1 + x, and one in lanes for f of any degree.
ghost use Rattle.std.specs.Prelude.{◌≡◌, ◌+◌, ◌-◌, ◌^◌, ◌<◌, ◌≤◌, length, get_or};
ghost use Rattle.locator.specs.Locate.{Noted, NotedBelow, hits, Found};
ghost use Rattle.locator.specs.Terms.{exponents_of, steps_of, low_of, high_of, alone_of, Logged, Laned, vanishes_of, vanishes_alone_of};

use crate::terms::{Lanes, Term};
use field::exponent::index;
use field::tables::PowerTable;

// A locator's terms, and its constant term, which is the same at every place.
#[derive(Clone, Copy)]
pub struct TermList<'a> {
    pub constant: u16,
    pub terms: &'a [Term],
    pub power_table: PowerTable<'a>,
    ghost listed: { Logged power_table.s (length terms.now) (exponents_of terms.now) (steps_of terms.now) },
}

// The same with the terms' remainders.
#[derive(Clone, Copy)]
pub struct LanedTerms<'a> {
    pub list: TermList<'a>,
    pub lanes: &'a [Lanes],
    ghost laned: { Laned (length list.terms.now) (low_of lanes.now) (high_of lanes.now) },
}

// Place i noted as the next of the list, where it is hit: 1 if so. Written in any case: no branch can guess it. That n places go in is a fact
// of the lent list, not of the terms, so each search asks it.
pub fn note(hit: bool, places: &mut [u16], c: usize, i: usize) -> usize
    requires { (c < length places.old) × (i < 65536) }
    ensures { Noted hit c i places.old places.new result }
{
    places[c] = i as u16;
    usize::from(hit)
}

// The same for a place that may lie past the last, and is none then.
pub fn note_below(n: usize, hit: bool, places: &mut [u16], c: usize, i: usize) -> usize
    requires { (n ≤ length places.old) × (n ≤ 65536) × (c ≤ i) }
    ensures { NotedBelow n hit c i places.old places.new result }
{
    if i < n { note(hit, places, c, i) } else { 0 }
}

impl<'a> TermList<'a> {
    // The sums of the terms at four neighbouring places, for f = 1 + x: the exponents at each are one step on from those at the one
    // before.
    pub fn four(&self, i: usize) -> [u16; 4]
        requires { i < 2 ^ self.now.power_table.s - 1 }
        ensures { (get_or result 0 0 ≡ alone_of self.now.power_table.s self.now.constant self.now.terms.now i)
            × (get_or result 1 0 ≡ alone_of self.now.power_table.s self.now.constant self.now.terms.now (i + 1))
            × (get_or result 2 0 ≡ alone_of self.now.power_table.s self.now.constant self.now.terms.now (i + 2))
            × (get_or result 3 0 ≡ alone_of self.now.power_table.s self.now.constant self.now.terms.now (i + 3)) }
    {
        let powers = self.power_table.powers;
        let mut first = 0u16;
        let mut second = 0u16;
        let mut third = 0u16;
        let mut fourth = 0u16;
        for term in self.terms {
            let a = term.step as usize;
            let y = index(term.exponent, term.step, i, self.power_table.s);
            first ^= powers[y];
            second ^= powers[y + a];
            third ^= powers[y + 2 * a];
            fourth ^= powers[y + 3 * a];
        }
        [
            self.constant ^ first,
            self.constant ^ second,
            self.constant ^ third,
            self.constant ^ fourth,
        ]
    }

    // Every place of n, until more than t are found, four at a time.
    pub fn search_fours(&self, n: usize, t: usize, places: &mut [u16]) -> usize
        requires { (n ≤ 2 ^ self.now.power_table.s - 1) × (n ≤ length places.old) × (n ≤ 65536) }
        ensures { Found n t (hits n (vanishes_alone_of self.now.power_table.s self.now.constant self.now.terms.now)) places.new result }
    {
        let mut c: usize = 0;
        for i in (0..n).step_by(4) {
            let [first, second, third, fourth] = self.four(i);
            c += note_below(n, first == 0, places, c, i);
            c += note_below(n, second == 0, places, c, i + 1);
            c += note_below(n, third == 0, places, c, i + 2);
            c += note_below(n, fourth == 0, places, c, i + 3);
            if t < c {
                return c;
            }
        }
        c
    }
}

impl<'a> LanedTerms<'a> {
    // Whether all coefficients of the remainder vanish at place i, for any f: a lane of two words for each coefficient, and so one load
    // and two products a term.
    pub fn lanes_vanish(&self, i: usize) -> bool
        requires { i < 2 ^ self.now.list.power_table.s - 1 }
        ensures { result ≡ vanishes_of self.now.list.power_table.s self.now.list.constant self.now.list.terms.now self.now.lanes.now i }
    {
        let mut a = u64::from(self.list.constant);
        let mut b = 0u64;
        for (m, term) in self.list.terms.iter().enumerate() {
            let y = u64::from(self.list.power_table.term(term.exponent, term.step, i));
            a ^= y * self.lanes[m].low;
            b ^= y * self.lanes[m].high;
        }
        b == 0 && a == 0
    }

    // Every place of n, until more than t are found.
    pub fn search(&self, n: usize, t: usize, places: &mut [u16]) -> usize
        requires { (n ≤ 2 ^ self.now.list.power_table.s - 1) × (n ≤ length places.old) × (n ≤ 65536) }
        ensures { Found n t (hits n (vanishes_of self.now.list.power_table.s self.now.list.constant self.now.list.terms.now self.now.lanes.now)) places.new result }
    {
        let mut c: usize = 0;
        for i in 0..n {
            c += note(self.lanes_vanish(i), places, c, i);
            if t < c {
                return c;
            }
        }
        c
    }
}
