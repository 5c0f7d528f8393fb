// A sheet judged: its record, or the first refusal of 1 to 10.
ghost use Rattle.std.specs.Prelude.{◌≡◌};
ghost use Rattle.document.specs.Answer.{judged_as};
ghost use Rattle.document.specs.Short.{judge_of};

use crate::judged::judge_into;
use document::types::{Record, Refusal};

// The sheet's bytes to its record, or to the first refusal of 1 to 10.
pub fn judge(sheet: &[u8]) -> Result<Record, Refusal>
    ensures { judged_as result ≡ judge_of sheet.now }
{
    let mut representatives = [0u16; 32];
    judge_into(sheet, &mut representatives)
}
