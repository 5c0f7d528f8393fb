// Euclid's rows, and what comes out of them.
ghost use Rattle.std.specs.Prelude.{◌≡◌, ◌≤◌, length};
ghost use Rattle.poly.specs.Slice.{Short};
ghost use Rattle.poly.specs.Division.{LengthOf};

use crate::row::length_of;

// A row of Euclid's algorithm: a remainder of len coefficients with its cofactor, which has at most cofactor_len. The lengths stand beside
// the slices: a remainder gets shorter and a cofactor longer where they are lent, with no heap.
#[derive(Drop)]
pub struct Row<'a> {
    pub remainder: &'a mut [u16],
    pub len: usize,
    pub cofactor: &'a mut [u16],
    pub cofactor_len: usize,
}

impl Row<'_> {
    // One more than the remainder's degree, and 0 for the polynomial 0, where there is nothing from coefficient n on.
    pub fn length_below(&self, n: usize) -> usize
        requires { (n ≤ length self.now.remainder.now) × Short n self.now.remainder.now }
        ensures { (result ≤ n) × LengthOf self.now.remainder.now result }
    {
        length_of(&self.remainder[..n])
    }

    // The row lent to be read: by it another is divided.
    pub fn divisor(&self) -> Divisor<'_>
        ensures remainder { result.remainder.now ≡ self.now.remainder.now }
        ensures len { result.len ≡ self.now.len }
        ensures cofactor { result.cofactor.now ≡ self.now.cofactor.now }
        ensures cofactor_len { result.cofactor_len ≡ self.now.cofactor_len }
    {
        Divisor {
            remainder: self.remainder,
            len: self.len,
            cofactor: self.cofactor,
            cofactor_len: self.cofactor_len,
        }
    }
}

// A row that is only read: what another is divided by.
#[derive(Clone, Copy)]
pub struct Divisor<'a> {
    pub remainder: &'a [u16],
    pub len: usize,
    pub cofactor: &'a [u16],
    pub cofactor_len: usize,
}

// Where Euclid's algorithm leaves the locator: as the cofactor of the upper row or of the lower one, and how many coefficients it has. The
// caller cuts it out: `Outcome` says what both lent cofactors hold, and a part of one would say less.
#[derive(Clone, Copy, Debug, PartialEq, Eq)]
pub enum Locator {
    Lower(usize),
    Upper(usize),
}
