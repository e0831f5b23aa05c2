// The line of a case: number and detail, the reader's five numbers, and each buffer in hexadecimal, with single spaces between.
// Written piece by piece and by no Display, which would hold a line back: where a write fails, what is out is what has always been.
use defs::{Refusal, SlipRead};
use std::io;

// Two digits for each byte, a bar for none.
pub fn buffer(rt: &impl Print, s: &[u8]) -> io::Result<()> {
    print!(rt; " ")?;
    if s.is_empty() {
        print!(rt; "-")?;
    }
    for x in s {
        print!(rt; "{x:02x}")?;
    }
    Ok(())
}

pub fn numbers(rt: &impl Print, a: usize, b: usize) -> io::Result<()> {
    print!(rt; "{a}")?;
    print!(rt; " ")?;
    print!(rt; "{b}")
}

// The number and the detail of an answer.
pub fn answer(rt: &impl Print, a: Result<usize, Refusal>) -> io::Result<()> {
    numbers(rt, answers::number_in(a), answers::detail_in(a))
}

// What the slip reader answers: its number and detail, then the edition and the code's numbers, each 0 on a refusal.
pub fn reading(rt: &impl Print, a: Result<SlipRead, Refusal>) -> io::Result<()> {
    answer(rt, a.map(|_| 0))?;
    let shown = match a {
        Ok(s) => [s.edition, s.m, s.r, s.count, s.k],
        Err(_) => [0; 5],
    };
    for x in shown {
        print!(rt; " ")?;
        print!(rt; "{x}")?;
    }
    Ok(())
}
