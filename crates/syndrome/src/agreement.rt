// The test of a repaired word: the values of the changed places alone, held to those of the received word.
ghost use Rattle.std.specs.Prelude.{◌≡◌, ◌*◌, ◌^◌, ◌<◌, length};
ghost use Rattle.field.specs.Field.{ω, field_power};
ghost use Rattle.syndrome.specs.Sums.{Valuable, sum_over};
ghost use Rattle.syndrome.specs.Value.{Comparable, Compared};

use field::product::order;
use field::tables::PowerTable;

// The sum of ω^(i by) over the places i of the list.
pub fn value(places: &[u16], by: u16, power_table: &PowerTable) -> u16
    requires { Valuable power_table.now.s by places.now }
    ensures { (result ≡ sum_over (λ i. field_power power_table.now.s ω (i * by)) places.now (length places.now)) × (result < 2 ^ power_table.now.s) }
{
    let mut acc = 0u16;
    for place in places {
        acc ^= power_table.term(0, by, *place as usize);
    }
    acc
}

// Whether the listed places have the value of the received word at each representative: then their sum, the word with these
// places changed, has the value 0 there, and is a codeword.
pub fn agrees(
    places: &[u16],
    n: usize,
    representatives: &[u16],
    values: &[u16],
    power_table: &PowerTable,
) -> bool
    requires { Comparable n power_table.now.s places.now representatives.now values.now }
    ensures { Compared n power_table.now.s places.now representatives.now values.now result }
{
    let q = order(power_table.s) / n;
    for representative in representatives {
        let r = *representative as usize;
        if value(places, (r * q) as u16, power_table) != values[r] {
            return false;
        }
    }
    true
}
