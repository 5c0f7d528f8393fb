// Products, inverses and quotients by the tables: a product is one sum of logarithms.
ghost use Rattle.std.specs.Prelude.{◌≡◌, ◌-◌, ◌*◌, ◌^◌, ◌<◌, ◌≤◌};
ghost use Rattle.field.specs.Field.{field_multiply, logarithm, inverses, quotients, values_of, ω, field_power};

use crate::product::order;
use crate::tables::FieldTables;

impl<'a> FieldTables<'a> {
    pub fn log(&self, a: u16) -> usize
        requires { a < 2 ^ self.now.s }
        ensures { result ≡ logarithm self.now.s a }
    {
        usize::from(self.logs[usize::from(a)])
    }

    #[tactic(auto, using(crate::proofs::Products::log_lt))]
    pub fn multiply(&self, a: u16, b: u16) -> u16
        requires { (a < 2 ^ self.now.s) × (b < 2 ^ self.now.s) }
        ensures { result ≡ field_multiply self.now.s a b }
    {
        if a == 0 {
            return 0;
        }
        if b == 0 {
            return 0;
        }
        self.powers[self.log(a) + self.log(b)]
    }

    // The inverse of ω^i is ω^(n - i), where n is the order of ω.
    #[tactic(auto, using(crate::proofs::Products::log_lt))]
    pub fn inverse(&self, a: u16) -> Option<u16>
        requires { a < 2 ^ self.now.s }
        ensures { values_of result ≡ inverses self.now.s a }
    {
        if a == 0 {
            None
        } else {
            Some(self.powers[order(self.s) - self.log(a)])
        }
    }

    // a times the inverse of b, which is looked for first. It is taken apart by let else, as document 01 asks ("Each place and its form").
    pub fn divide(&self, a: u16, b: u16) -> Option<u16>
        requires { (a < 2 ^ self.now.s) × (b < 2 ^ self.now.s) }
        ensures { values_of result ≡ quotients self.now.s a b }
    {
        let Some(x) = self.inverse(b) else {
            return None;
        };
        Some(self.multiply(a, x))
    }

    // ω^k a, where k may be a sum of two logarithms.
    #[tactic(auto, using(crate::proofs::Products::log_lt))]
    pub fn scaled(&self, k: usize, a: u16) -> u16
        requires { (k ≤ 2 * (2 ^ self.now.s - 1)) × (a < 2 ^ self.now.s) }
        ensures { result ≡ field_multiply self.now.s (field_power self.now.s ω k) a }
    {
        if a == 0 {
            return 0;
        }
        self.powers[k + self.log(a)]
    }
}
