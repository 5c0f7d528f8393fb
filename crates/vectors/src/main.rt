// Calls of the entries from standard input, and for each what it answers. A call is four bytes, its kind, the lengths of sheet and
// input, and the length of the buffer lent or of the words; then sheet and input. Kinds: 0 judge and card, 1 encode, 2 read,
// 3 decode, 4 decode with every word of a length, 5 card with a buffer whose length is the input, two bytes, 6 decode with marks, 7 the
// part that is shown, 8 encode, 9 read and 10 decode of a shortened code, 11 decode a block, where the fourth byte is how many bytes more
// the input has. tools/answers.py makes the calls, and the same answers with none of this code.
#![tactic(auto)]

// the kinds of calls
mod kind;

// what lines are made of
mod line;

// lines about sheets
mod sheets;

// lines about card with a buffer of any length
mod cards;

// the line about one message or word, of a shortened code too
mod words;

// the line about all words of a length
mod every;

// lines about words with marked places, and the part that is shown
mod marked;

// the line about a block of words
mod block;

ghost use Rattle.std.specs.Prelude.{◌≤◌, length, IfOk};

use crate::kind::Kind;
use crate::words::{short_line, word_line};
use code::decode::{decode, decode_short};
use code::encode::{encode, encode_short};
use code::read::{read, read_short};
use std::io;
use std::io::Read;

fn main(rt: HostRuntime) -> io::Result<()> {
    let mut from = rt.stdin();
    for _ in 0..100000 {
        if !answer_call(&rt, &mut from)? {
            break;
        }
    }
    Ok(())
}

// False where the input has ended, or a length is past its buffer.
fn answer_call<R: Read>(rt: &impl Print, from: &mut R) -> io::Result<bool> {
    let mut head = [0u8; 4];
    if read_full(from, &mut head)? == 0 {
        return Ok(false);
    }
    let [number, size, count, length] = head;
    let kind = Kind::from(number);
    // A block's input has as many bytes more as the fourth byte says.
    let further = if kind == Kind::DecodeBlock { length } else { 0 };
    let mut sheet = [0u8; 80];
    let mut input = [0u8; 300];
    let Some(sheet) = sheet.get_mut(..usize::from(size)) else {
        return Ok(false);
    };
    let Some(input) = input.get_mut(..usize::from(count) + usize::from(further)) else {
        return Ok(false);
    };
    read_full(from, sheet)?;
    read_full(from, input)?;
    answer(rt, kind, sheet, input, usize::from(length))?;
    Ok(true)
}

// Reads until the buffer is full or the input ends, and returns how many bytes it put at the start of the buffer; `read_exact` does not
// say how many. stream has the same function for itself: it is linkcard's crate, and would be named here for this alone.
fn read_full<R: Read>(from: &mut R, buffer: &mut [u8]) -> io::Result<usize>
    ensures { IfOk result (λ n. n ≤ length buffer.new) }
{
    let mut done = 0;
    while done < buffer.len() {
        let n = from.read(&mut buffer[done..])?;
        if n == 0 {
            break;
        }
        done += n;
    }
    Ok(done)
}

fn answer(
    rt: &impl Print,
    kind: Kind,
    sheet: &[u8],
    input: &[u8],
    length: usize,
) -> io::Result<()> {
    match kind {
        Kind::Judge => {
            sheets::judge_line(rt, sheet)?;
            sheets::card_lines(rt, sheet)
        }
        Kind::Encode => word_line(rt, "encode", |out| encode(sheet, input, out), length),
        Kind::Read => word_line(rt, "read", |out| read(sheet, input, out), length),
        Kind::Decode => word_line(rt, "decode", |out| decode(sheet, input, out), length),
        Kind::DecodeAll => every::words_line(rt, sheet, length),
        Kind::Card => cards::card_lines(rt, sheet, input),
        Kind::DecodeMarked => marked::marked_line(rt, sheet, input),
        Kind::Shown => marked::shown_line(rt, input),
        Kind::EncodeShort => short_line(
            rt,
            "encode_short",
            |m, message, out| encode_short(sheet, m, message, out),
            input,
            length,
        ),
        Kind::ReadShort => short_line(
            rt,
            "read_short",
            |m, word, out| read_short(sheet, m, word, out),
            input,
            length,
        ),
        Kind::DecodeShort => short_line(
            rt,
            "decode_short",
            |m, word, out| decode_short(sheet, m, word, out),
            input,
            length,
        ),
        Kind::DecodeBlock => block::block_line(rt, sheet, input),
    }
}
