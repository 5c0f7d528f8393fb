// The members of D, and the digits of the generator.
ghost use Rattle.std.specs.Prelude.{◌+◌, ◌*◌, ◌<◌, ◌≤◌, length};
ghost use Rattle.binary.specs.Packed.{places_in};
ghost use Rattle.listing.specs.Wrote.{Adds};
ghost use Rattle.listing.specs.Text.{rows, member, member_in, digit_in};

use crate::piece::Page;
use binary::packed::coefficient_at;

impl<'a> Page<'a> {
    // Place i, where it is marked.
    fn put_member(&mut self, i: usize, mark: u8)
        requires { (self.old.end + 5 ≤ length self.old.out.now) × (i < 10000) }
        ensures { Adds (member mark i) self.old self.new × (self.new.end ≤ self.old.end + 5) }
    {
        if mark != 0 {
            self.put_spaced(i);
        }
    }

    // The marked places below n, rising.
    pub fn put_members(&mut self, n: usize, zeros: &[u8])
        requires { (self.old.end + 5 * n ≤ length self.old.out.now) × (n < 10000) × (n ≤ length zeros.now) }
        ensures { Adds (rows (member_in zeros.now) n) self.old self.new × (self.new.end ≤ self.old.end + 5 * n) }
    {
        for (i, mark) in zeros[..n].iter().enumerate() {
            self.put_member(i, *mark);
        }
    }

    // The first coefficients of the generator, from x^0 up.
    pub fn put_digits(&mut self, generator: &[u64], count: usize)
        requires { (self.old.end + count ≤ length self.old.out.now) × (count ≤ places_in generator.now) }
        ensures { Adds (rows (digit_in generator.now) count) self.old self.new × (self.new.end ≤ self.old.end + count) }
    {
        for j in 0..count {
            self.put(b'0' + coefficient_at(generator, j) as u8);
        }
    }
}
