// Rules 3 and 4: no common factors of the f(α^i x), and the terms of h/f walked by a shift register.
ghost use Rattle.std.specs.Prelude.{◌≡◌, not, ◌+◌, ◌*◌, ◌/◌, ◌%◌, ◌<◌};
ghost use Rattle.field.specs.Mask.{◌⊕◌};
ghost use Rattle.field.specs.Field.{order_of_two};
ghost use Rattle.binary.specs.Factor.{Modulus};
ghost use Rattle.document.specs.Apart.{factors_apart};
ghost use Rattle.document.proofs.Theory.{Length};
ghost use Rattle.sheet.specs.Stage.{certificate_as};
ghost use Rattle.certificate.specs.Rules.{Walkable, Ruled};

use field::order::step;
use sheet::types::Certificate;

// The register of h/f after one term: its lowest coefficient is the term, and f times it is taken off before the shift.
pub fn next_register(f: usize, num: usize) -> usize
    requires { (f < 512) × (num < 256) }
    ensures { result ≡ (num ⊕ (num % 2) * f) / 2 }
{
    if num % 2 == 1 { (num ^ f) / 2 } else { num / 2 }
}

// Refusal 10: a term that is 1 at a place that is not in D.
pub fn wrong_terms(n: usize, c: Certificate, zeros: &[u8]) -> bool
    requires { Walkable n c zeros.now }
    ensures { Ruled n (certificate_as c) zeros.now result }
{
    let mut num = usize::from(c.h);
    let mut at = usize::from(c.b);
    for _term in 0..c.terms {
        if usize::from(zeros[at]) < num % 2 {
            return true;
        }
        num = next_register(usize::from(c.f), num);
        at = step(n, at, usize::from(c.z));
    }
    false
}

// Refusal 9: some f(α^i x) and f(α^j x), for different i and j below n, have a common factor. A period coprime to n says that none do,
// and is looked at first.
pub fn factors_shared(n: usize, f: usize, u: usize) -> bool
    requires { Modulus f u × Length n }
    ensures { result ≡ not (factors_apart (order_of_two n) n f) }
{
    !binary::factor::coprime(binary::period::period(f, u), n)
        && !binary::independence::independent(n, f, u)
}
