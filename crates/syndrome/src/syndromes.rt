// The syndromes of a word: aj times its value at α^(b + j·z), for each j below L.
ghost use Rattle.std.specs.Prelude.{◌≤◌, length};
ghost use Rattle.sheet.specs.Stage.{certificate_as};
ghost use Rattle.certificate.specs.Rules.{Walkable};
ghost use Rattle.syndrome.specs.Series.{SyndromesOf};

use certificate::rules::next_register;
use field::order::step;
use sheet::types::Certificate;

// From a word's values at the powers of α: the first L entries of out are written. The walk is that of certificate's `wrong_terms`: an
// iterator for both would be longer than the two.
pub fn syndromes(n: usize, c: Certificate, values: &[u16], out: &mut [u16])
    requires { Walkable n c values.now × (c.terms ≤ length out.old) }
    ensures { SyndromesOf n (certificate_as c) values.now out.old out.new }
{
    let mut num = c.h as usize;
    let mut at = c.b as usize;
    for j in 0..c.terms as usize {
        out[j] = (num % 2) as u16 * values[at];
        num = next_register(c.f as usize, num);
        at = step(n, at, c.z as usize);
    }
}
