// The line about one message or word: the entry, its reply, and the buffer afterwards, which holds AA before.
use crate::line::hex;
use code::refusal::refusal_number;
use document::types::Refusal;
use std::io;

pub fn word_line<F: FnOnce(&mut [u8]) -> Result<usize, Refusal>>(
    rt: &impl Print,
    name: &str,
    entry: F,
    length: usize,
) -> io::Result<()>
    requires { F.IsAlwaysCallable entry }
{
    let mut out = [170u8; 20];
    let Some(lent) = out.get_mut(..length) else {
        return Ok(());
    };
    let reply = entry(lent);
    print!(rt; "{name}")?;
    reply_words(rt, reply)?;
    hex(rt, lent)?;
    println!(rt)
}

// For a shortened code: the input is m, eight bytes, the low one first, and the message or the word.
pub fn short_line<F: FnOnce(usize, &[u8], &mut [u8]) -> Result<usize, Refusal>>(
    rt: &impl Print,
    name: &str,
    entry: F,
    input: &[u8],
    length: usize,
) -> io::Result<()>
    requires { F.IsAlwaysCallable entry }
{
    let Some((m, given)) = input.split_first_chunk::<8>() else {
        return Ok(());
    };
    let m = usize::from_le_bytes(*m);
    word_line(rt, name, |out| entry(m, given, out), length)
}

// What is returned may be the number of a refusal.
pub fn reply_words(rt: &impl Print, reply: Result<usize, Refusal>) -> io::Result<()> {
    match reply {
        Ok(n) => print!(rt; " returned {n} "),
        Err(r) => print!(rt; " refused {} ", refusal_number(r)),
    }
}
