// Certificates weighed: the working certificate.
ghost use Rattle.std.specs.Prelude.{◌≡◌, ◌+◌, ◌≤◌, IfOk};
ghost use Rattle.judging.specs.Weigh.{Weighable, WeighedBy, best_of, weighed_as};

use crate::types::Best;
use certificate::check::check;
use document::types::Refusal;
use sheet::types::Certificate;

// The better of the best so far and certificate i: the earlier one unless d of the later is larger, or the same in fewer terms.
fn better(best: Best, i: usize, d: usize, terms: u16) -> Best
    ensures { result ≡ best_of best i d terms }
{
    if best.d < d || (d == best.d && terms < best.terms) {
        Best { index: i, d, terms }
    } else {
        best
    }
}

// The certificates in turn, each of at most `most` terms: the working one with its distance and terms, or the first refusal.
pub fn weigh(
    most: usize,
    n: usize,
    certificates: &[Certificate],
    zeros: &[u8],
) -> Result<Best, Refusal>
    requires { Weighable most n certificates.now zeros.now }
    ensures weighed { WeighedBy most n certificates.now zeros.now (weighed_as result) }
    ensures small { IfOk result (λ best. best.d ≤ most + 8) }
{
    let mut best = Best {
        index: 0,
        d: 0,
        terms: 0,
    };
    for (i, c) in certificates.iter().enumerate() {
        let d = check(most, n, *c, zeros)?;
        best = better(best, i, d, c.terms);
    }
    Ok(best)
}
