// The record made of what a sheet states.
ghost use Rattle.std.specs.Prelude.{◌≡◌, ◌≤◌};
ghost use Rattle.document.specs.Answer.{record_as};
ghost use Rattle.judging.specs.Weigh.{recorded};

use crate::types::Best;
use document::types::Record;

// The record, by n, s, the size of D and the working certificate: its d, t and number of terms are that one's.
// Each number fits 16 bits by what is required, so it is cast: u16::try_from would add a refusal that can't come.
pub fn record_of(n: usize, s: usize, size: usize, best: Best) -> Record
    requires { (size ≤ n) × (n ≤ 65535) × (s ≤ 65535) × (best.index ≤ 65535) × (1 ≤ best.d) × (best.d ≤ 65535) }
    ensures { record_as result ≡ recorded n s size best }
{
    Record {
        n: n as u16,
        k: (n - size) as u16,
        s: s as u16,
        working: best.index as u16,
        d: best.d as u16,
        t: ((best.d - 1) / 2) as u16,
        terms: best.terms,
    }
}
