// What linkcard does, on the files of data/: a sheet that is refused, one whose f has a period that shares a factor
// with n, one with two certificates of one distance, one as long as any, and streams that are longer.
#![tactic(auto)]

use std::rt::Files;
use std::{fs, io};

fn main(rt: HostRuntime) -> io::Result<()> {
    for name in [
        "sheet_s_with_10_terms",
        "period_15_of_21",
        "two_of_one_distance",
        "bytes_74",
        "bytes_75_as_stated",
        "bytes_100_of_74_stated",
    ] {
        list(&rt, name)?;
    }
    Ok(())
}

// A file's name, and the listing of what it holds.
fn list(rt: &(impl Files + Print), name: &str) -> io::Result<()> {
    rt.println(name)?;
    let Ok(mut from) = fs::open(rt, name) else {
        return Ok(());
    };
    stream::list_sheet(&mut from, &mut io::writer(rt))
}
