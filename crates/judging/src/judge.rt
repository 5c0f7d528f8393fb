// What a sheet states that draws none of refusals 1 to 4: refusals 5 to 10 in turn, the working certificate, and the record.
ghost use Rattle.std.specs.Prelude.{◌≡◌, []};
ghost use Rattle.document.specs.Answer.{judged_as};
ghost use Rattle.sheet.specs.Stage.{Marks};
ghost use Rattle.judging.specs.Weigh.{Judgeable, stated_as, judge_stated};

use crate::record::record_of;
use crate::weigh::weigh;
use document::types::{Record, Refusal};
use sheet::cosets::{marks, wrong_representative};
use sheet::types::Certificate;

// Refusals 5 to 10 of a code of length n with these representatives and certificates, each of at most `most` terms.
pub fn judge_code(
    most: usize,
    n: usize,
    s: usize,
    representatives: &[u16],
    certificates: &[Certificate],
    zeros: &mut [u8],
) -> Result<Record, Refusal>
    requires { Judgeable most n s certificates.now × Marks n [] zeros.old }
    ensures { judged_as result ≡ judge_stated most (stated_as n representatives.now certificates.now) }
{
    if wrong_representative(n, s, representatives, zeros) {
        return Err(Refusal::Representative);
    }
    let size = marks(n, zeros);
    if size == n {
        return Err(Refusal::NoMessage);
    }
    let best = weigh(most, n, certificates, zeros)?;
    Ok(record_of(n, s, size, best))
}
