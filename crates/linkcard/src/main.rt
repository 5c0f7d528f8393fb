// linkcard: a code sheet from standard input, its listing to standard output.
#![tactic(auto)]

use std::io;

fn main(rt: HostRuntime) -> io::Result<()> {
    stream::list_sheet(&mut rt.stdin(), &mut rt.stdout())
}
