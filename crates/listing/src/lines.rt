// The lines of the listing, by the numbers that stand in them.
ghost use Rattle.std.specs.Prelude.{◌+◌, ◌*◌, ◌<◌, ◌≤◌, length};
ghost use Rattle.document.specs.Card.{code_text, certificate_text, radius_text};
ghost use Rattle.binary.specs.Packed.{places_in};
ghost use Rattle.listing.specs.Wrote.{Adds};
ghost use Rattle.listing.specs.Text.{zeros_text, generator_text};

use crate::piece::Page;

impl<'a> Page<'a> {
    pub fn code_line(&mut self, n: usize, k: usize, s: usize)
        requires { (self.old.end + 20 ≤ length self.old.out.now) × (n < 10000) × (k < 10000) × (s < 10000) }
        ensures { Adds (code_text n k s) self.old self.new × (self.new.end ≤ self.old.end + 20) }
    {
        self.put_field(b"code", n);
        self.put_spaced(k);
        self.put_spaced(s);
        self.put(b'\n');
    }

    pub fn zeros_line(&mut self, n: usize, zeros: &[u8])
        requires { (self.old.end + 5 * n + 6 ≤ length self.old.out.now) × (n < 10000) × (n ≤ length zeros.now) }
        ensures { Adds (zeros_text zeros.now n) self.old self.new × (self.new.end ≤ self.old.end + 5 * n + 6) }
    {
        self.put_text(b"zeros");
        self.put_members(n, zeros);
        self.put(b'\n');
    }

    // m is the generator's degree.
    pub fn generator_line(&mut self, generator: &[u64], m: usize)
        requires { (self.old.end + m + 12 ≤ length self.old.out.now) × (m < places_in generator.now) }
        ensures { Adds (generator_text generator.now m) self.old self.new × (self.new.end ≤ self.old.end + m + 12) }
    {
        self.put_text(b"generator ");
        self.put_digits(generator, m + 1);
        self.put(b'\n');
    }

    pub fn certificate_line(&mut self, i: usize, terms: usize, d: usize)
        requires { (self.old.end + 35 ≤ length self.old.out.now) × (i < 10000) × (terms < 10000) × (d < 10000) }
        ensures { Adds (certificate_text i terms d) self.old self.new × (self.new.end ≤ self.old.end + 35) }
    {
        self.put_field(b"cert", i);
        self.put_field(b" terms", terms);
        self.put_field(b" distance", d);
        self.put(b'\n');
    }

    pub fn radius_line(&mut self, t: usize, working: usize)
        requires { (self.old.end + 27 ≤ length self.old.out.now) × (t < 10000) × (working < 10000) }
        ensures { Adds (radius_text t working) self.old self.new × (self.new.end ≤ self.old.end + 27) }
    {
        self.put_field(b"radius", t);
        self.put_field(b" from cert", working);
        self.put(b'\n');
    }
}
