// The line about all words of a length: how many there are with each number of changed places, how many are refused, and a
// checksum of every reply and buffer in turn. It goes by a factor modulo a prime, so no single wrong answer leaves it as it is.
ghost use Rattle.std.specs.Prelude.{◌<◌};

use code::decode::decode;
use code::refusal::refusal_number;
use document::types::Refusal;
use std::io;

// A word has 3 bytes at most. More than 7 changed places would be counted with the refused.
pub fn words_line(rt: &impl Print, sheet: &[u8], n: usize) -> io::Result<()> {
    if 24 < n {
        return Ok(());
    }
    let mut counts = [0usize; 9];
    let mut checksum = 0usize;
    for word in 0..1u32 << n {
        checksum = with_word(sheet, word, n.div_ceil(8), checksum, &mut counts);
    }
    print!(rt; "all changed")?;
    for count in &counts[..8] {
        print!(rt; " {count}")?;
    }
    println!(rt; " refused {} checksum {checksum}", counts[8])
}

// The checksum with the answer to a word, which is counted. The word is a mask over its places: "place i of a word has weight
// 2^(7 - i mod 8) in byte i div 8".
fn with_word(
    sheet: &[u8],
    word: u32,
    count: usize,
    checksum: usize,
    counts: &mut [usize; 9],
) -> usize
    requires { checksum < 4294967291 }
    ensures { result < 4294967291 }
{
    let bytes = word.reverse_bits().to_be_bytes();
    let mut out = [170u8; 3];
    let x = reply_byte(decode_part(sheet, &bytes, &mut out, count));
    let at = usize::from(x).min(8);
    counts[at] = counts[at].wrapping_add(1);
    let value = u32::from_le_bytes([out[0], out[1], out[2], x]);
    (checksum * 1000003 + value as usize) % 4294967291
}

// Decodes with the first bytes of word and buffer.
fn decode_part(sheet: &[u8], word: &[u8], out: &mut [u8], count: usize) -> Result<usize, Refusal> {
    let (Some(word), Some(out)) = (word.get(..count), out.get_mut(..count)) else {
        return Err(Refusal::BufferLength);
    };
    decode(sheet, word, out)
}

// The number of changed places, or 128 more than a refusal's.
fn reply_byte(reply: Result<usize, Refusal>) -> u8 {
    match reply {
        Ok(n) => (n % 128) as u8,
        Err(r) => 128 + (refusal_number(r) % 128) as u8,
    }
}
