// The lines about card with a buffer of a given length, which holds AA before: whether it returned or refused, with which number,
// how many bytes after the listing hold AA still (all of the buffer's where it refused), and the listing.
use crate::sheets::write_part;
use code::card::card;
use code::refusal::refusal_number;
use std::io;

// The input is the buffer's length, two bytes, the low one first; 1,280 at most.
pub fn card_lines(rt: &impl Print, sheet: &[u8], input: &[u8]) -> io::Result<()> {
    let Some(length) = input.first_chunk::<2>() else {
        return Ok(());
    };
    let mut out = [170u8; 1280];
    let Some(lent) = out.get_mut(..usize::from(u16::from_le_bytes(*length))) else {
        return Ok(());
    };
    match card(sheet, lent) {
        Ok(size) => {
            println!(rt; "card returned {size} then aa {}", untouched(lent, size))?;
            write_part(rt, lent, size)
        }
        Err(r) => {
            println!(rt;
                "card refused {} then aa {}",
                refusal_number(r),
                untouched(lent, 0)
            )
        }
    }
}

// How many bytes from a place on hold AA.
fn untouched(lent: &[u8], start: usize) -> usize {
    lent.iter().skip(start).filter(|x| **x == 170).count()
}
