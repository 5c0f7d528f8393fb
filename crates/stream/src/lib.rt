// What linkcard does: a code sheet from a reader, its listing to a writer. All that matters is `code::card::card`, and that the
// buffer takes one byte more than the longest sheet: that is enough to see that a stream is too long.
#![tactic(auto)]

ghost use Rattle.std.specs.Prelude.{◌≡◌, List, ℕ, ◌≤◌, length, take, IfOk};
ghost use Rattle.document.specs.Answer.{replied_as};
ghost use Rattle.document.specs.Short.{card_of};
ghost use Rattle.stream.specs.declared.TheConstants.{ROOM};

use code::card::card;
use document::types::Refusal;
use std::io;
use std::io::{Read, Write};

// One byte more than the longest sheet has.
const ROOM: usize = 75;

pub fn list_sheet<R: Read, W: Write>(from: &mut R, to: &mut W) -> io::Result<()> {
    let mut input = [0u8; ROOM];
    let mut out = [0u8; 1024];
    let size = read_full(from, &mut input)?;
    match card_of(&input[..size], &mut out) {
        Ok(end) => to.write_all(&out[..end]),
        Err(_) => Ok(()),
    }
}

// Fills the buffer, or what of it the reader has bytes for; how many came. `read_exact` would not tell how many, and `read_to_end`
// wants a heap.
fn read_full<R: Read>(from: &mut R, buffer: &mut [u8]) -> io::Result<usize>
    ensures { IfOk result (λ size. size ≤ length buffer.old) }
{
    let mut size = 0;
    while size < buffer.len() {
        let more = from.read(&mut buffer[size..])?;
        if more == 0 {
            break;
        }
        size += more;
    }
    Ok(size)
}

// The listing of a stream, however long, of which ROOM bytes were read, or all that it has.
fn card_of(read: &[u8], out: &mut [u8]) -> Result<usize, Refusal>
    ensures { (stream : List ℕ) → take ROOM stream ≡ read.now → (replied_as result, out.new) ≡ card_of stream out.old }
{
    card(read, out)
}
