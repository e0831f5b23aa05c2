// A slip turned into one of the other edition.
#![tactic(auto)]

ghost use Rattle.std.specs.Prelude.{◌≡◌};
ghost use Rattle.defs.specs.Turn.{Turned};
ghost use Rattle.slip.specs.Edition.{number};
ghost use Rattle.turn.specs.Edition.{edition_verdict};

use defs::{LONGEST, Refusal};
use slip::Edition;

// 10 and 11, for bytes that are not of this edition.
fn check_edition(from: Edition, slip: &[u8]) -> Result<(), Refusal>
    ensures { result ≡ edition_verdict (number from) slip.now }
{
    if slip.len() < 3 {
        return Err(Refusal::SlipShort);
    }
    if from.number() != slip::edition_in(slip) {
        return Err(Refusal::Edition);
    }
    Ok(())
}

// Reads a slip of one edition and writes it in another.
fn turn(from: Edition, to: Edition, slip: &[u8], bytes: &mut [u8]) -> Result<usize, Refusal>
    ensures { Turned (number from) (number to) slip.now bytes.old result bytes.new }
{
    check_edition(from, slip)?;
    // There is no heap, so both have the room of the longest row.
    let mut points = [0u8; LONGEST];
    let mut row = [0u8; LONGEST];
    let found = slip::slip_read(slip, &mut points, &mut row)?;
    let n = found.r * found.count;
    if to.layout().top < n {
        return Err(Refusal::RowLong);
    }
    slip::slip_write(
        to.number(),
        found.m,
        found.r,
        found.k,
        &points[..found.count],
        &row[..n],
        bytes,
    )
}

// A slip of edition 1 as one of edition 2. Done with its size.
pub fn to_new(slip: &[u8], bytes: &mut [u8]) -> Result<usize, Refusal>
    ensures { Turned 1 2 slip.now bytes.old result bytes.new }
{
    turn(Edition::Old, Edition::New, slip, bytes)
}

// And back.
pub fn to_old(slip: &[u8], bytes: &mut [u8]) -> Result<usize, Refusal>
    ensures { Turned 2 1 slip.now bytes.old result bytes.new }
{
    turn(Edition::New, Edition::Old, slip, bytes)
}
