// Frames on standard input: a byte for the call, then its numbers in eight bytes each, then its slices, each behind its length in
// two bytes. Low bytes come first. An input that ends too soon counts as zeros.
ghost use Rattle.std.specs.Prelude.{◌≤◌};
ghost use Rattle.cases.specs.declared.frame.TheConstants.{ROOM};

use crate::call::Call;
use printing::read_full;
use std::io;
use std::io::Read;

// No slice of a case is longer.
pub const ROOM: usize = 600;

// The next call. None where the input ends, and for a byte that stands for no call.
pub fn call(input: &mut impl Read) -> io::Result<Option<Call>> {
    let mut b = [0u8; 1];
    read_full(input, &mut b)?;
    Ok(Call::try_from(b[0]).ok())
}

fn number(input: &mut impl Read) -> io::Result<usize> {
    let mut b = [0u8; 8];
    read_full(input, &mut b)?;
    Ok(usize::from_le_bytes(b))
}

// A slice of a case, at the front of the room for it, since there is no heap.
#[derive(Clone, Copy)]
pub struct Bytes {
    pub room: [u8; ROOM],
    pub size: usize,
    pub ghost within: { size ≤ ROOM },
}

impl Bytes {
    pub fn none() -> Bytes {
        Bytes {
            room: [0u8; ROOM],
            size: 0,
        }
    }

    // Empty where the frame says that it has more than there is room for.
    pub fn read(input: &mut impl Read) -> io::Result<Bytes> {
        let mut b = [0u8; 2];
        read_full(input, &mut b)?;
        let size = usize::from(u16::from_le_bytes(b));
        let mut bytes = Bytes::none();
        if size <= ROOM {
            bytes.size = size;
            read_full(input, &mut bytes.room[..size])?;
        }
        Ok(bytes)
    }

    pub fn as_slice(&self) -> &[u8] {
        &self.room[..self.size]
    }
}

// The numbers of a case. Those that its call does not take are 0.
#[derive(Clone, Copy, Default)]
pub struct Numbers {
    pub edition: usize,
    pub m: usize,
    pub r: usize,
    pub k: usize,
}

impl Numbers {
    pub fn read(input: &mut impl Read, call: Call) -> io::Result<Numbers> {
        let mut numbers = Numbers::default();
        if call.takes_edition() {
            numbers.edition = number(input)?;
        }
        if call.takes_field() {
            numbers.m = number(input)?;
        }
        if call.takes_depth() {
            numbers.r = number(input)?;
        }
        if call.takes_code() {
            numbers.k = number(input)?;
        }
        Ok(numbers)
    }
}
