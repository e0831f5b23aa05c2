// Reads a slip from standard input and prints its line. One byte more than a slip may have is enough to decide.
#![tactic(auto)]

use slip::LONGEST_SLIP;
use std::io;

fn main(rt: HostRuntime) -> io::Result<()> {
    let mut bytes = [0u8; LONGEST_SLIP + 1];
    let n = printing::read_full(&mut rt.stdin(), &mut bytes)?;
    printing::print_line(&rt, &bytes[..n])
}
