// Rule 1, part by part.
ghost use Rattle.std.specs.Prelude.{◌≡◌, not, ◌≤◌};
ghost use Rattle.document.specs.Certificate.{steps, ratio, extent, rule1};
ghost use Rattle.sheet.specs.Stage.{certificate_as};

use sheet::types::Certificate;

// Start and step of rule 1.
#[tactic(auto, unfolding(document::specs::Certificate::steps))]
fn wrong_steps(n: usize, c: Certificate) -> bool
    requires { (3 ≤ n) × (n ≤ 65535) }
    ensures { result ≡ not (steps n (certificate_as c)) }
{
    let b = usize::from(c.b);
    let z = usize::from(c.z);
    !(b < n && 1 <= z && z <= n - 1 && binary::factor::coprime(z, n))
}

// The masks of rule 1.
#[tactic(auto, unfolding(document::specs::Certificate::ratio))]
fn wrong_ratio(c: Certificate) -> bool
    ensures { result ≡ not (ratio (certificate_as c)) }
{
    let u = binary::factor::degree(usize::from(c.f));
    u < 1 || 8 < u || c.f % 2 != 1 || c.h == 0 || u <= binary::factor::degree(usize::from(c.h))
}

// The number of terms, at most `most`, and the zero of rule 1.
#[tactic(auto, unfolding(document::specs::Certificate::extent))]
fn wrong_extent(most: usize, c: Certificate) -> bool
    ensures { result ≡ not (extent most (certificate_as c)) }
{
    c.terms < 1 || most < usize::from(c.terms) || c.zero != 0
}

// Refusal 7.
#[tactic(auto, unfolding(document::specs::Certificate::rule1))]
pub fn wrong_range(most: usize, n: usize, c: Certificate) -> bool
    requires { (3 ≤ n) × (n ≤ 65535) }
    ensures { result ≡ not (rule1 most n (certificate_as c)) }
{
    wrong_steps(n, c) || wrong_ratio(c) || wrong_extent(most, c)
}
