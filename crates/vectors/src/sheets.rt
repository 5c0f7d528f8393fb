// Lines about sheets: judge's record, and card's listing.
use code::card::card;
use code::judge::judge;
use code::refusal::refusal_number;
use document::types::Refusal;
use std::io;

pub fn judge_line(rt: &impl Print, sheet: &[u8]) -> io::Result<()> {
    match judge(sheet) {
        Ok(r) => {
            println!(rt;
                "accepted {} {} {} {} {} {} {}",
                r.n, r.k, r.s, r.working, r.d, r.t, r.terms
            )
        }
        Err(r) => refused_line(rt, r),
    }
}

pub fn card_lines(rt: &impl Print, sheet: &[u8]) -> io::Result<()> {
    let mut out = [170u8; 1024];
    match card(sheet, &mut out) {
        Ok(size) => write_part(rt, &out, size),
        Err(r) => refused_line(rt, r),
    }
}

pub fn write_part(rt: &impl Print, text: &[u8], size: usize) -> io::Result<()> {
    let Some(part) = text.get(..size) else {
        return Ok(());
    };
    rt.write_all(part)
}

fn refused_line(rt: &impl Print, r: Refusal) -> io::Result<()> {
    println!(rt; "refused {}", refusal_number(r))
}
