// A table of slips, good, damaged, cut, extended and noise: standard input has each behind its length in two bytes, the
// lower first, and standard output the line of each, as `second` computed it.
#![tactic(auto)]

ghost use Rattle.std.specs.Prelude.{length};
ghost use Rattle.std.specs.Iterator.{at_most};

use std::io;

// More bytes than the table has.
const ROOM: usize = 65536;

// The slips of a table, up to its end or to one that is cut off.
#[derive(Drop)]
struct Slips<'a>(&'a [u8]);

impl<'a> Iterator for Slips<'a> {
    type Item = &'a [u8];

    ghost remaining = { λ s. at_most (length s.0.now) };

    fn next(&mut self) -> Option<&'a [u8]> {
        let (size, behind) = self.0.split_first_chunk::<2>()?;
        let (slip, rest) = behind.split_at_checked(usize::from(u16::from_le_bytes(*size)))?;
        self.0 = rest;
        Some(slip)
    }
}

fn main(rt: HostRuntime) -> io::Result<()> {
    let mut table = [0u8; ROOM];
    let n = printing::read_full(&mut rt.stdin(), &mut table)?;
    for slip in Slips(&table[..n]) {
        printing::print_line(&rt, slip)?;
    }
    Ok(())
}
