// Each call, and the line that says what it answered and what its buffers hold afterwards.
use crate::frame::Numbers;
use crate::show;
use defs::Refusal;
use std::io;

// What a call is made with: its numbers, and the points, the row, the text or the like that it reads.
// The buffers that it fills are passed beside this: tried within it, and the borrow checker does not follow a `&mut` in a struct here.
#[derive(Clone, Copy)]
pub struct Case<'a> {
    pub numbers: Numbers,
    pub first: &'a [u8],
    pub second: &'a [u8],
}

// The line of a call that fills one buffer.
fn filled(rt: &impl Print, a: Result<usize, Refusal>, buffer: &[u8]) -> io::Result<()> {
    show::answer(rt, a)?;
    show::buffer(rt, buffer)?;
    println!(rt)
}

pub fn encode(rt: &impl Print, case: Case<'_>, row: &mut [u8]) -> io::Result<()> {
    let Numbers { m, r, k, .. } = case.numbers;
    let a = rows::encode(m, r, k, case.first, case.second, row);
    filled(rt, a, row)
}

pub fn decode(
    rt: &impl Print,
    case: Case<'_>,
    message: &mut [u8],
    depths: &mut [u8],
) -> io::Result<()> {
    let Numbers { m, r, k, .. } = case.numbers;
    let a = decode::decode(m, r, k, case.first, case.second, message, depths);
    show::answer(rt, a)?;
    show::buffer(rt, message)?;
    show::buffer(rt, depths)?;
    println!(rt)
}

pub fn distance(rt: &impl Print, case: Case<'_>) -> io::Result<()> {
    let a = rows::distance(case.numbers.r, case.first, case.second);
    show::answer(rt, a)?;
    println!(rt)
}

pub fn slip_write(rt: &impl Print, case: Case<'_>, bytes: &mut [u8]) -> io::Result<()> {
    let Numbers { edition, m, r, k } = case.numbers;
    let a = slip::slip_write(edition, m, r, k, case.first, case.second, bytes);
    filled(rt, a, bytes)
}

pub fn slip_read(
    rt: &impl Print,
    case: Case<'_>,
    points: &mut [u8],
    row: &mut [u8],
) -> io::Result<()> {
    let s = slip::slip_read(case.first, points, row);
    show::reading(rt, s)?;
    show::buffer(rt, points)?;
    show::buffer(rt, row)?;
    println!(rt)
}

// Any call that reads one slice and fills one buffer.
pub fn fill<F: Fn(&[u8], &mut [u8]) -> Result<usize, Refusal>>(
    rt: &impl Print,
    case: Case<'_>,
    buffer: &mut [u8],
    call: F,
) -> io::Result<()>
    requires { F.IsAlwaysCallable call }
{
    let a = call(case.first, buffer);
    filled(rt, a, buffer)
}

// The size of the first slip stands where another call has its detail.
pub fn roll_first(rt: &impl Print, case: Case<'_>) -> io::Result<()> {
    let number = answers::number_in(roll::roll_answer(case.first));
    let size = roll::roll_first(case.first).len();
    show::numbers(rt, number, size)?;
    println!(rt)
}
