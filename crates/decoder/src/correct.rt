// The places at which a received word is to be changed, in lent slices: values, syndromes, Euclid's rows, places, and the test of
// whatever places came out. arrays.rt has the slices.
ghost use Rattle.std.specs.Prelude.{◌≡◌, ◌≤◌, length, take};
ghost use Rattle.field.specs.Tables.{Powered};
ghost use Rattle.syndrome.specs.Value.{Comparable};
ghost use Rattle.codeword.specs.Place.{places_of};
ghost use Rattle.decoder.specs.Correct.{corrected_as, Verified, Choosable, Chosen, Correctable, Corrected};

use crate::stated::StatedCode;
use binary::factor::degree;
use field::tables::{FieldTables, PowerTable};
use locator::locate::locate;
use locator::terms::{Lanes, Term};
use poly::euclid::euclid;
use poly::types::Locator;
use syndrome::agreement::agrees;
use syndrome::syndromes::syndromes;
use syndrome::values::{evaluate, extend};

// Whatever places a locator has, they are let through only if they are at most t and changing them gives a codeword. The table of powers is
// made here: where more than t places are listed nothing is asked of it, and only where m is at most t are m places there to be cut off.
pub fn verdict(
    n: usize,
    s: usize,
    t: usize,
    m: usize,
    places: &[u16],
    representatives: &[u16],
    values: &[u16],
    powers: &[u16],
) -> Option<usize>
    requires { m ≤ t → Powered s powers.now × (m ≤ length places.now) × Comparable n s (take m places.now) representatives.now values.now }
    ensures { Verified n s t m places.now representatives.now values.now (corrected_as result) }
{
    if t < m {
        return None;
    }
    let power_table = PowerTable { s, powers };
    if agrees(&places[..m], n, representatives, values, &power_table) {
        return Some(m);
    }
    None
}

// The locator: the first coefficients of a cofactor of Euclid's rows.
fn holder<'a>(locator: Locator, lower_cofactor: &'a [u16], upper_cofactor: &'a [u16]) -> &'a [u16]
    requires { Choosable locator lower_cofactor.now upper_cofactor.now }
    ensures { Chosen locator lower_cofactor.now upper_cofactor.now result.now }
{
    match locator {
        Locator::Lower(len) => &lower_cofactor[..len],
        Locator::Upper(len) => &upper_cofactor[..len],
    }
}

// The slices that correcting a word works in: the word's columns, its values, Euclid's two rows with their cofactors, and the locator's
// terms with their lanes.
pub struct Workspace<'a> {
    pub columns: &'a mut [u64],
    pub values: &'a mut [u16],
    pub upper: &'a mut [u16],
    pub lower: &'a mut [u16],
    pub lower_cofactor: &'a mut [u16],
    pub upper_cofactor: &'a mut [u16],
    pub terms: &'a mut [Term],
    pub lanes: &'a mut [Lanes],
}

// The places that turn a word into the codeword within t places of it, if there is one. They are lent beside the workspace: the caller reads
// them when that is gone.
pub fn correct(
    code: &StatedCode,
    tables: &FieldTables,
    workspace: Workspace,
    places: &mut [u16],
    word: &[u8],
) -> Option<usize>
    requires { (tables.now.s ≡ code.now.s) × Correctable code.now.n code.now.certificate workspace.columns.now workspace.values.now workspace.upper.now workspace.lower.now workspace.lower_cofactor.now workspace.upper_cofactor.now workspace.terms.now workspace.lanes.now places.old (places_of word.now) }
    ensures { Corrected code.now.n code.now.t code.now.representatives.now (places_of word.now) places.new (corrected_as result) }
{
    let n = code.n;
    let c = code.certificate;
    let Workspace {
        columns,
        values,
        upper,
        lower,
        lower_cofactor,
        upper_cofactor,
        terms,
        lanes,
    } = workspace;
    if evaluate(word, n, code.representatives, tables, columns, values) {
        return Some(0);
    }
    extend(n, code.representatives, tables, values);
    syndromes(n, c, values, lower);
    let f = c.f as usize;
    let u = degree(f);
    let length = c.terms as usize;
    let stop = length - code.t * u;
    let found = euclid(
        tables,
        upper,
        lower,
        lower_cofactor,
        upper_cofactor,
        length,
        stop,
    );
    let locator = holder(found, lower_cofactor, upper_cofactor);
    let z = c.z as usize;
    let m = locate(n, z, f, u, code.t, locator, tables, terms, lanes, places);
    verdict(
        n,
        tables.s,
        code.t,
        m,
        places,
        code.representatives,
        values,
        tables.powers,
    )
}
