// Refusal 16: by how many places a code may be shortened.
ghost use Rattle.std.specs.Prelude.{◌≡◌, ◌||◌, eqb, leb, IfOk, IfErr};
ghost use Rattle.code.specs.Stating.{UnsentPlaces, WrongUnsent};

use document::types::Refusal;

// Whether m is 0, or not below k.
pub fn wrong_shortening(m: usize, k: usize) -> bool
    ensures { result ≡ eqb m 0 || leb k m }
{
    m == 0 || k <= m
}

// How many places are not sent: the m by which a code is shortened, or none of a whole one.
pub fn unsent_places(shortening: Option<usize>, k: usize) -> Result<usize, Refusal>
    ensures right { IfOk result (UnsentPlaces shortening k) }
    ensures wrong { IfErr result (WrongUnsent shortening k) }
{
    match shortening {
        Some(m) if wrong_shortening(m, k) => Err(Refusal::Shortening),
        Some(m) => Ok(m),
        None => Ok(0),
    }
}
