// The numbers of refusals.
ghost use Rattle.std.specs.Prelude.{◌≡◌};
ghost use Rattle.document.specs.Answer.{number_of};

use document::types::Refusal;

// The number of a refusal: document 01's table, and document 02's. A function and no From: docs/PROMISES.md names it.
pub fn refusal_number(r: Refusal) -> usize
    ensures { result ≡ number_of r }
{
    r as usize
}
