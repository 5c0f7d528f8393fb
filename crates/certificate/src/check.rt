// A certificate against rules 1 to 4: refusals 7 to 10, and its distance.
ghost use Rattle.std.specs.Prelude.{◌≡◌, ◌+◌, ◌-◌, ◌/◌, ◌≤◌, IfOk};
ghost use Rattle.binary.specs.Factor.{degree};
ghost use Rattle.document.specs.Answer.{replied_as};
ghost use Rattle.document.specs.Certificate.{distance as distance_of};
ghost use Rattle.sheet.specs.Stage.{certificate_as};
ghost use Rattle.certificate.specs.Rules.{Checkable, CheckedBy};

use crate::range::wrong_range;
use crate::rules::{factors_shared, wrong_terms};
use document::types::Refusal;
use sheet::types::Certificate;

// (L - v)/u + 1, rounded up.
fn distance(terms: usize, u: usize, v: usize) -> usize
    requires { (1 ≤ u) × (u ≤ 8) × (terms ≤ 65535) }
    ensures { (result ≡ (terms - v + (u - 1)) / u + 1) × (result ≤ terms + 8) }
{
    (terms.saturating_sub(v) + (u - 1)) / u + 1
}

// The distance of a certificate that keeps rule 1.
#[tactic(auto, unfolding(document::specs::Certificate::distance))]
pub fn distance_of(c: Certificate) -> usize
    requires { (1 ≤ degree c.f) × (degree c.f ≤ 8) }
    ensures { (result ≡ distance_of (certificate_as c)) × (result ≤ c.terms + 8) }
{
    let u = binary::factor::degree(usize::from(c.f));
    let v = binary::factor::degree(usize::from(c.h));
    distance(usize::from(c.terms), u, v)
}

// A certificate of at most `most` terms against rules 1 to 4 in turn, by the marks of D.
#[tactic(auto, unfolding(crate::specs::Rules::check_of, document::specs::Judge::certificate_conditions, document::specs::Answer::first_of, document::specs::Answer::settle_in, document::specs::Certificate::rule2, document::specs::Certificate::rule3, document::specs::Certificate::distance))]
pub fn check(most: usize, n: usize, c: Certificate, zeros: &[u8]) -> Result<usize, Refusal>
    requires { Checkable n zeros.now }
    ensures checked { CheckedBy most n (certificate_as c) zeros.now (replied_as result) }
    ensures small { IfOk result (λ d. d ≤ most + 8) }
{
    if wrong_range(most, n, c) {
        return Err(Refusal::Range);
    }
    let f = usize::from(c.f);
    let h = usize::from(c.h);
    if binary::common::common(f, h) {
        return Err(Refusal::CommonFactor);
    }
    let u = binary::factor::degree(f);
    if factors_shared(n, f, u) {
        return Err(Refusal::Period);
    }
    if wrong_terms(n, c, zeros) {
        return Err(Refusal::Term);
    }
    Ok(distance(usize::from(c.terms), u, binary::factor::degree(h)))
}
