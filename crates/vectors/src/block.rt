// The line about decoding a block: the reply, and both buffers afterwards, of which the output holds AA before and the verdicts 55.
use crate::line::hex;
use crate::words::reply_words;
use code::block::decode_block;
use std::io;

// The input is m, eight bytes, and the length of the output, two, the low one first; that of the verdicts, a byte; then the block.
pub fn block_line(rt: &impl Print, sheet: &[u8], input: &[u8]) -> io::Result<()> {
    let Some((m, rest)) = input.split_first_chunk::<8>() else {
        return Ok(());
    };
    let Some((&[low, high, verdict_count], block)) = rest.split_first_chunk::<3>() else {
        return Ok(());
    };
    let mut out = [170u8; 300];
    let mut verdicts = [85u8; 20];
    let Some(out) = out.get_mut(..usize::from(u16::from_le_bytes([low, high]))) else {
        return Ok(());
    };
    let Some(verdicts) = verdicts.get_mut(..usize::from(verdict_count)) else {
        return Ok(());
    };
    let reply = decode_block(sheet, usize::from_le_bytes(*m), block, out, verdicts);
    print!(rt; "decode_block")?;
    reply_words(rt, reply)?;
    hex(rt, out)?;
    print!(rt; " ")?;
    hex(rt, verdicts)?;
    println!(rt)
}
