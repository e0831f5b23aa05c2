// Runs each case on standard input through its call and prints a line for it: what the call answered, and what its buffers hold
// afterwards. Cases and lines were made by the second program; those worked by hand come first.
#![tactic(auto)]

mod call;
mod calls;
mod frame;
mod show;

use call::Call;
use calls::Case;
use frame::{Bytes, Numbers};
use std::io;
use std::io::Read;

// More cases than any input has.
const MOST: usize = 100000;

// Makes the call and prints its line.
fn make(
    rt: &impl Print,
    call: Call,
    case: Case<'_>,
    buffer: &mut [u8],
    other: &mut [u8],
) -> io::Result<()> {
    let Numbers { m, r, .. } = case.numbers;
    match call {
        Call::Encode => calls::encode(rt, case, buffer),
        Call::Decode => calls::decode(rt, case, buffer, other),
        Call::Distance => calls::distance(rt, case),
        Call::SlipWrite => calls::slip_write(rt, case, buffer),
        Call::SlipRead => calls::slip_read(rt, case, buffer, other),
        Call::Line => calls::fill(rt, case, buffer, line::line),
        Call::RollFirst => calls::roll_first(rt, case),
        Call::ToNew => calls::fill(rt, case, buffer, turn::to_new),
        Call::ToOld => calls::fill(rt, case, buffer, turn::to_old),
        Call::LevelsRead => calls::fill(
            rt,
            case,
            buffer,
            |text, row| levels::levels_read(m, r, text, row),
        ),
        Call::LevelsWrite => calls::fill(
            rt,
            case,
            buffer,
            |row, text| levels::levels_write(m, r, row, text),
        ),
    }
}

// Reads what the call takes, and makes it.
fn run(rt: &impl Print, input: &mut impl Read, call: Call) -> io::Result<()> {
    let numbers = Numbers::read(input, call)?;
    let first = Bytes::read(input)?;
    let mut second = Bytes::none();
    let mut buffer = Bytes::none();
    let mut other = Bytes::none();
    if call.takes_second() {
        second = Bytes::read(input)?;
    }
    if call.fills_buffer() {
        buffer = Bytes::read(input)?;
    }
    if call.fills_other() {
        other = Bytes::read(input)?;
    }
    let case = Case {
        numbers,
        first: first.as_slice(),
        second: second.as_slice(),
    };
    // A part of `room` is lent here, to be written, and not by a method: tried, and no proof was made for one that lends a part of a struct with a ghost field.
    let filled = buffer.size;
    let filled_too = other.size;
    make(
        rt,
        call,
        case,
        &mut buffer.room[..filled],
        &mut other.room[..filled_too],
    )
}

// Nothing says that the input ends, so the cases are counted.
fn main(rt: HostRuntime) -> io::Result<()> {
    let mut input = rt.stdin();
    for _ in 0..MOST {
        let Some(call) = frame::call(&mut input)? else {
            break;
        };
        run(&rt, &mut input, call)?;
    }
    Ok(())
}
