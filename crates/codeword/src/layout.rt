// Words and messages in bytes: single places read and set, four or eight read at once, and spare bits. What a layout gives is where the
// places lie in a byte; the rest is the same in each.
ghost use Rattle.std.specs.Prelude.{ℕ, ◌≡◌, ◌/◌, ◌%◌, ◌^◌, ◌<◌, ◌≤◌, length};
ghost use Rattle.document.specs.Layout.{word_weight, message_weight, bytes_for, place, spare};
ghost use Rattle.codeword.specs.Place.{Weights, word_weights, message_weights, Put, lowest_first, turned, whole_mask, four_places};

// The places of words, or of messages, in bytes: eight in each.
pub trait Layout {
    // the weight of place i in its byte: all that is particular to a layout
    ghost weight: { ℕ → ℕ };

    // How far the bit of place i stands from the low end of its byte.
    fn shift(i: usize) -> usize
        ensures { (weight i ≡ 2 ^ result) × (result < 8) };

    // The places of a byte, the first of them lowest.
    fn lowest_first(byte: u8) -> usize
        ensures { result ≡ lowest_first weight byte };

    final fn place(bytes: &[u8], i: usize) -> u8
        requires { i / 8 < length bytes.now }
        ensures { result ≡ place weight bytes.now i }
    {
        (bytes[i / 8] >> Self::shift(i)) & 1
    }

    final fn set_place(bytes: &mut [u8], i: usize, bit: u8)
        requires { (i / 8 < length bytes.old) × (bit < 2) }
        ensures { Put weight i bit bytes.old bytes.new }
    {
        let shift = Self::shift(i);
        bytes[i / 8] = (bytes[i / 8] & !(1 << shift)) | (bit << shift);
    }

    // Eight places from i on, place i lowest; those past the last byte are 0.
    final fn eight_places(bytes: &[u8], i: usize) -> usize
        requires { i / 8 < length bytes.now }
        ensures { result ≡ whole_mask weight bytes.now / 2 ^ i % 256 }
    {
        let at = i / 8;
        let low = Self::lowest_first(bytes[at]) >> (i % 8);
        if at + 1 == bytes.len() {
            return low;
        }
        (low + (Self::lowest_first(bytes[at + 1]) << (8 - i % 8))) & 255
    }

    // Whether a spare bit is 1: its places are the last of the last byte.
    final fn spare(n: usize, bytes: &[u8]) -> bool
        requires { (length bytes.now ≡ bytes_for n) × (1 ≤ n) × (n ≤ 65535) }
        ensures { result ≡ spare weight n bytes.now }
    {
        let last = bytes.len() - 1;
        Self::lowest_first(bytes[last]) >> (n - 8 * last) != 0
    }

    ghost weights: { Weights weight };
}

// Words: the highest bit of a byte is the first of its places.
pub struct Word;

impl Layout for Word {
    ghost weight = { word_weight };

    ghost weights = { word_weights };

    fn shift(i: usize) -> usize {
        7 - i % 8
    }

    fn lowest_first(byte: u8) -> usize {
        turned_byte(usize::from(byte))
    }
}

// Messages: the lowest bit of a byte is the first of its places.
pub struct Message;

impl Layout for Message {
    ghost weight = { message_weight };

    ghost weights = { message_weights };

    fn shift(i: usize) -> usize {
        i % 8
    }

    fn lowest_first(byte: u8) -> usize {
        usize::from(byte)
    }
}

// Places i to i + 3 of a word, 16 bits apart in one number, place i lowest: half a byte at once.
pub fn four_word_places(bytes: &[u8], i: usize) -> u64
    requires { (i / 8 < length bytes.now) × (i % 4 ≡ 0) }
    ensures { result ≡ four_places word_weight bytes.now i }
{
    let half = u64::from(bytes[i / 8]) >> (4 - i % 8);
    (((half & 1) * 65536 + ((half >> 1) & 1)) * 65536 + ((half >> 2) & 1)) * 65536
        + ((half >> 3) & 1)
}

// A byte with its places the other way round: each multiplication puts copies of the byte side by side, of which the masks keep four
// bits each, where they stand in the turned byte modulo 8; the last one adds them up. It stays beside `u8::reverse_bits` for the edit
// byte_turned_too_far, which shifts this sum by another amount.
pub fn turned_byte(b: usize) -> usize
    requires { b < 256 }
    ensures { result ≡ turned b }
{
    (((((b * 2050) & 139536) | ((b * 32800) & 558144)) * 65793) >> 16) & 255
}

pub fn bytes_for(n: usize) -> usize
    requires { n ≤ 65535 }
    ensures { result ≡ bytes_for n }
{
    n.div_ceil(8)
}
