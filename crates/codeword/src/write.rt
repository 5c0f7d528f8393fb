// Codewords and messages written into bytes.
ghost use Rattle.std.specs.Prelude.{◌+◌, ◌-◌, ◌*◌, ◌<◌, ◌≤◌, length};
ghost use Rattle.binary.specs.Packed.{places_in};
ghost use Rattle.codeword.specs.Codewords.{Encodable, EightOf, PlacesWritten, CodewordWritten, Readable, BytesRead, MessageRead};

use crate::code::CyclicCode;
use crate::layout::{Layout, Message, Word, turned_byte};
use crate::remainder::{make_feedback, take_places};
use binary::packed::eight_places;

// Eight places from i on of the word that has the message from place m on, and below it what the register holds.
fn eight_codeword_places(message: &[u8], m: usize, register: &[u64], i: usize) -> usize
    requires { (m ≤ places_in register.now) × (places_in register.now ≤ 65535) × (i < m + length message.now * 8) × (i ≤ 65535) × (1 ≤ length message.now) }
    ensures { EightOf message.now m register.now i result }
{
    if m <= i {
        return Message::eight_places(message, i - m);
    }
    let low = eight_places(register, 64 * register.len() - m + i) as usize;
    if i + 8 <= m {
        return low;
    }
    (low + (Message::eight_places(message, 0) << (m - i))) & 255
}

// All of its places, eight at a time.
fn write_places(message: &[u8], m: usize, register: &[u64], out: &mut [u8])
    requires { (m ≤ places_in register.now) × (places_in register.now ≤ 65535) × (length out.old * 8 < m + length message.now * 8 + 8) × (length out.old ≤ 8191) × (1 ≤ length message.now) }
    ensures { PlacesWritten message.now m register.now out.new }
{
    for (j, byte) in out.iter_mut().enumerate() {
        let eight = eight_codeword_places(message, m, register, 8 * j);
        *byte = turned_byte(eight) as u8;
    }
}

// The codeword of a message of so many bits, at most k, without spare bits: as many of its places as the message and the remainder take.
// Those above, with the message's missing bits, are 0.
// The remainder comes out of a register of W numbers of 64 bits.
pub fn write_codeword<const W: usize>(
    code: &CyclicCode,
    bits: usize,
    message: &[u8],
    out: &mut [u8],
)
    requires { (code.now.n ≤ 64 * W) × (W ≤ 1023) × (1 ≤ bits) × (bits ≤ code.now.k) × Encodable (code.now.n - code.now.k + bits) bits message.now out.old }
    ensures { CodewordWritten code.now.n (code.now.n - code.now.k + bits) bits code.now.representatives.now message.now out.new }
{
    let mut feedback = [0u64; W];
    let mut register = [0u64; W];
    make_feedback(
        code.representatives,
        code.n,
        code.n - code.k,
        code.s,
        &mut feedback,
        &mut register,
    );
    take_places::<Message>(message, bits, &feedback, &mut register);
    write_places(message, code.n - code.k, &register, out);
}

// The first whole bytes of a message, whose places are those of the word from m on.
fn write_whole_bytes(word: &[u8], m: usize, out: &mut [u8])
    requires { (m + length out.old * 8 ≤ length word.now * 8) × (length word.now ≤ 8192) }
    ensures { BytesRead m word.now out.new }
{
    for (j, byte) in out.iter_mut().enumerate() {
        *byte = Word::eight_places(word, m + 8 * j) as u8;
    }
}

// The message in the k places of a word from m on. Those of the last byte, if it has spare bits, are set one by one.
pub fn write_message(word: &[u8], m: usize, k: usize, out: &mut [u8])
    requires { Readable m k word.now out.old }
    ensures { MessageRead m k word.now out.new }
{
    out[out.len() - 1] = 0;
    write_whole_bytes(word, m, &mut out[..k / 8]);
    for i in k / 8 * 8..k {
        Message::set_place(out, i, Word::place(word, m + i));
    }
}
