// Reads a roll of any length from standard input and prints the line of each slip found. Where a refusal ends the walk, its
// line is the last one. The buffer is read full, walked, and what is left of it moved to its front before the next turn.
#![tactic(auto)]

ghost use Rattle.std.specs.Prelude.{◌≡◌, ◌≤◌, ◌<◌, length, IfOk, IfSome};

use slip::LONGEST_SLIP;
use std::io;
use std::io::Read;

// So much of the roll is looked at together. At least the longest slip has to fit.
const ROOM: usize = 65536;

// The first slip of a part and what stands behind it, where the slip's end is in sight: of a part that is not the roll's last,
// more may follow.
fn next_slip(part: &[u8], is_last: bool) -> Option<(&[u8], &[u8])>
    ensures { IfSome result (λ found. length found.1.now < length part.now) }
{
    if !is_last && part.len() < LONGEST_SLIP {
        return None;
    }
    let first = roll::roll_first(part);
    if first.is_empty() {
        return None;
    }
    Some(part.split_at(first.len()))
}

// Prints the lines of the slips whose end is in sight, and answers what is left behind them.
fn print_slips<'a>(rt: &impl Print, part: &'a [u8], is_last: bool) -> io::Result<&'a [u8]>
    ensures { IfOk result (λ rest. length rest.now ≤ length part.now) }
{
    let mut rest = part;
    while let Some((slip, behind)) = next_slip(rest, is_last) {
        printing::print_line(rt, slip)?;
        rest = behind;
    }
    Ok(rest)
}

// Walks a part of the roll, and answers how many of its last bytes the walk goes on with. None where no more can be found: what
// is left is refused, or nothing is left.
fn walk_part(rt: &impl Print, part: &[u8], is_last: bool) -> io::Result<Option<usize>>
    ensures { IfOk result (λ more. IfSome more (λ left. left ≤ length part.now)) }
{
    let rest = print_slips(rt, part, is_last)?;
    if !is_last && rest.len() < LONGEST_SLIP {
        return Ok(Some(rest.len()));
    }
    if !rest.is_empty() {
        printing::print_line(rt, rest)?;
    }
    Ok(None)
}

// Fills the buffer behind the bytes that are left, and answers how many it then has. Where a read fails, what is behind them may be written in part.
fn fill(input: &mut impl Read, buf: &mut [u8], left: usize) -> io::Result<usize>
    requires { left ≤ length buf.old }
    ensures within { IfOk result (λ n. n ≤ length buf.new) }
    ensures size { length buf.new ≡ length buf.old }
{
    let n = printing::read_full(input, &mut buf[left..])?;
    Ok(left + n)
}

// Nothing says that an input ends, so the turns have a number that no run uses up.
fn walk_all(rt: &impl Print, input: &mut impl Read, buf: &mut [u8]) -> io::Result<()> {
    let mut left = 0;
    for _ in 0..u64::MAX {
        let n = fill(input, buf, left)?;
        let is_last = n < buf.len();
        let Some(more) = walk_part(rt, &buf[..n], is_last)? else {
            break;
        };
        buf.copy_within(n - more..n, 0);
        left = more;
    }
    Ok(())
}

fn main(rt: HostRuntime) -> io::Result<()> {
    let mut buf = [0u8; ROOM];
    walk_all(&rt, &mut rt.stdin(), &mut buf)
}
