// The places at which a factor divides a locator.
ghost use Rattle.locator.specs.Locate.{Search, Located};

use crate::search::{LanedTerms, TermList};
use crate::terms::{Lanes, Term, list_terms};
use field::product::order;
use field::tables::FieldTables;

// Lists the places i below n at which f(α^(i z) x) divides the locator, and counts them; it stops as soon as there are
// more than t. At place i that asks whether f divides the locator at α^(i (n - z)) x, since α^n = 1.
pub fn locate(
    n: usize,
    z: usize,
    f: usize,
    u: usize,
    t: usize,
    locator: &[u16],
    tables: &FieldTables,
    terms: &mut [Term],
    lanes: &mut [Lanes],
    places: &mut [u16],
) -> usize
    requires { Search n tables.now.s z f u locator.now terms.old lanes.old places.old }
    ensures { Located n tables.now.s z f t locator.now places.new result }
{
    let back = (n - z) * (order(tables.s) / n);
    let count = list_terms(tables.s, back, f, u, locator, tables.logs, terms, lanes);
    let list = TermList {
        constant: locator[0],
        terms: &terms[..count],
        power_table: tables.power_table(),
    };
    if u == 1 {
        return list.search_fours(n, t, places);
    }
    let lanes = &lanes[..count];
    LanedTerms { list, lanes }.search(n, t, places)
}
