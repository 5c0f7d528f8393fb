// The value of a word at a power of ω by its columns: four neighbouring places at once, one in each lane, and the lanes' sums put
// together by Horner's rule. One product of a power of ω serves four places.
ghost use Rattle.std.specs.Prelude.{length};
ghost use Rattle.codeword.specs.Place.{places_of};
ghost use Rattle.syndrome.specs.Columns.{Columnable, Columned, Summable, LaneSums, Valued};

use codeword::layout::four_word_places;
use field::exponent::{fold, index};
use field::tables::FieldTables;

// All columns of a word: column i has the places from 4 i on. Two at a time, a byte's.
pub fn fill_columns(word: &[u8], columns: &mut [u64])
    requires { Columnable (length columns.old) (places_of word.now) }
    ensures { Columned (length columns.new) (places_of word.now) columns.new }
{
    for i in (0..columns.len()).step_by(2) {
        columns[i] = four_word_places(word, 4 * i);
        columns[i + 1] = four_word_places(word, 4 * i + 4);
    }
}

// In each lane the sum of ω^(4 i by) over the columns i that have a 1 there, two columns at a time.
fn lane_sums(columns: &[u64], by: u16, tables: &FieldTables) -> u64
    requires { Summable tables.now.s by columns.now }
    ensures { LaneSums (length columns.now) tables.now.s by columns.now result }
{
    let next = fold(4 * (by as usize), tables.s);
    let mut a = 0u64;
    for i in (0..columns.len()).step_by(2) {
        let y = index(0, by, 4 * i, tables.s);
        a ^= columns[i] * u64::from(tables.powers[y]);
        a ^= columns[i + 1] * u64::from(tables.powers[y + next]);
    }
    a
}

// The place in a lane comes one after that in the lane below it: ω^by times its sum is what it adds.
pub fn value_by_columns(columns: &[u64], by: u16, tables: &FieldTables) -> u16
    requires { Summable tables.now.s by columns.now }
    ensures { Valued (length columns.now) tables.now.s by columns.now result }
{
    let a = lane_sums(columns, by, tables);
    let k = by as usize;
    let first = (a % 65536) as u16;
    let second = (a / 65536 % 65536) as u16;
    let third = (a / 4294967296 % 65536) as u16;
    let fourth = (a / 281474976710656 % 65536) as u16;
    let z = third ^ tables.scaled(k, fourth);
    let y = second ^ tables.scaled(k, z);
    first ^ tables.scaled(k, y)
}
