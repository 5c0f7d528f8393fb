// The lines about decoding with marks: the reply, and both trial buffers afterwards, of which the zeros' holds AA before and the ones' 55;
// and about the part that is shown of two buffers, of which the zeros' holds 00 01 02 .. and the ones' 80 81 82 ..
use crate::line::hex;
use code::marked::{decode_marked, shown};
use code::refusal::refusal_number;
use document::types::{Refusal, Shown};
use std::io;

// The input is four lengths, of the word, the marks, the zeros' buffer and the ones', a byte each; then word and marks.
pub fn marked_line(rt: &impl Print, sheet: &[u8], input: &[u8]) -> io::Result<()> {
    let Some((&[word_length, marks_length, zeros_length, ones_length], rest)) =
        input.split_first_chunk::<4>() else {
        return Ok(());
    };
    let Some((word, rest)) = rest.split_at_checked(usize::from(word_length)) else {
        return Ok(());
    };
    let Some(marks) = rest.get(..usize::from(marks_length)) else {
        return Ok(());
    };
    let mut zeros = [170u8; 20];
    let mut ones = [85u8; 20];
    let Some(zeros) = zeros.get_mut(..usize::from(zeros_length)) else {
        return Ok(());
    };
    let Some(ones) = ones.get_mut(..usize::from(ones_length)) else {
        return Ok(());
    };
    reply_words(rt, decode_marked(sheet, word, marks, zeros, ones))?;
    hex(rt, zeros)?;
    print!(rt; " ")?;
    hex(rt, ones)?;
    println!(rt)
}

fn reply_words(rt: &impl Print, reply: Result<Shown, Refusal>) -> io::Result<()> {
    match reply {
        Ok(Shown { unmarked, trial }) => { print!(rt; "marked returned {unmarked} {trial} ") }
        Err(r) => print!(rt; "marked refused {} ", refusal_number(r)),
    }
}

// The input is the trial and n, eight bytes each, the low one first, and the lengths of the two buffers, a byte each.
pub fn shown_line(rt: &impl Print, input: &[u8]) -> io::Result<()> {
    let Some((trial, rest)) = input.split_first_chunk::<8>() else {
        return Ok(());
    };
    let Some((n, rest)) = rest.split_first_chunk::<8>() else {
        return Ok(());
    };
    let Some(&[zeros_length, ones_length]) = rest.first_chunk::<2>() else {
        return Ok(());
    };
    let zeros = counted_from(0);
    let ones = counted_from(128);
    let Some(zeros) = zeros.get(..usize::from(zeros_length)) else {
        return Ok(());
    };
    let Some(ones) = ones.get(..usize::from(ones_length)) else {
        return Ok(());
    };
    print!(rt; "shown ")?;
    hex(
        rt,
        shown(
            usize::from_le_bytes(*trial),
            usize::from_le_bytes(*n),
            zeros,
            ones,
        ),
    )?;
    println!(rt)
}

// Each byte holds one more than the byte before it, from a first one on.
fn counted_from(first: u8) -> [u8; 20] {
    std::array::from_fn(|i| first.wrapping_add(i as u8))
}
