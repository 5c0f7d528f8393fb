// The bytes that decoding writes: those of a word, with listed places set to the other value by shifts and masks.
ghost use Rattle.std.specs.Prelude.{◌≡◌, length};
ghost use Rattle.decoder.specs.Repair.{Repairable, Repaired, Reached};

use codeword::layout::{Layout, Word};

// Bytes copied by a loop: for `copy_from_slice` the archive would need memmove beside memcpy and memset.
pub fn copy(from: &[u8], to: &mut [u8])
    requires { length to.old ≡ length from.now }
    ensures { to.new ≡ from.now }
{
    for (i, byte) in from.iter().enumerate() {
        to[i] = *byte;
    }
}

// The listed places, each set to the other value.
pub fn flip(places: &[u16], out: &mut [u8])
    requires { Repairable out.old places.now (length places.now) out.old }
    ensures { Repaired out.old places.now (length places.now) out.new }
{
    for place in places {
        let i = usize::from(*place);
        let bit = Word::place(out, i);
        Word::set_place(out, i, 1 - bit);
    }
}

// Whether one of the listed places is not below the end of a word.
pub fn reaches(places: &[u16], end: usize) -> bool
    ensures { Reached places.now (length places.now) end result }
{
    places.iter().any(|place| end <= usize::from(*place))
}

// The bytes of a word with the listed places changed.
pub fn repair(word: &[u8], places: &[u16], out: &mut [u8])
    requires { Repairable word.now places.now (length places.now) out.old }
    ensures { Repaired word.now places.now (length places.now) out.new }
{
    copy(word, out);
    flip(places, out);
}
