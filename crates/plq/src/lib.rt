// The calls once more as functions for C: a slice is a pointer and a length, an answer one number.
// A function for each call, its numbers loose and its answer a word: that is the C interface.
#![tactic(auto, using(crate::proofs::Small::small_answers))]

ghost use Rattle.std.specs.Prelude.{◌≡◌, ◌+◌, ◌*◌, ◌^◌, ◌<◌};
ghost use Rattle.defs.specs.Refusal.{detail};
ghost use Rattle.defs.specs.Encode.{distance_answer};
ghost use Rattle.plq.specs.Packed.{packed, packed_read, packed_roll, packed_line, PackedEncoded, PackedDecoded, PackedWritten, PackedRead, PackedLined, PackedTurned, PackedLevelsRead, PackedLevelsWritten, Narrow};

use defs::{Refusal, SlipRead};

// The numbers of lines that have room above the number of an answer.
const LINES: usize = 1 << 56;

// The number of an answer in the low byte, and above it what else the answer says.
fn join(number: usize, detail: usize) -> u64
    requires { number + detail * 2 ^ 8 < 2 ^ 64 }
    ensures { result ≡ number + detail * 2 ^ 8 }
{
    // There is no From from usize.
    (number + detail * 256) as u64
}

// An answer as one number.
fn pack(a: Result<usize, Refusal>) -> u64
    requires { detail a < 2 ^ 16 }
    ensures { result ≡ packed a }
{
    join(answers::number_in(a), answers::detail_in(a))
}

// An answer with the number of a line.
fn pack_line(a: Result<usize, Refusal>) -> u64
    ensures { result ≡ packed_line a }
{
    join(answers::number_in(a), answers::detail_in(a) % LINES)
}

// What a refused slip shows of its edition and its code's numbers.
const NOTHING: SlipRead = SlipRead {
    edition: 0,
    m: 0,
    r: 0,
    count: 0,
    k: 0,
};

// What the slip reader answers as one number, with a byte for each part.
#[tactic(auto, unfolding(defs::specs::Refusal::answer))]
fn pack_read(a: Result<SlipRead, Refusal>) -> u64
    requires { Narrow a }
    ensures { result ≡ packed_read a }
{
    let told = a.map(|_| 0);
    let number = answers::number_in(told);
    let detail = answers::detail_in(told);
    let s = a.unwrap_or(NOTHING);
    // It fits, as is proved; try_from would bring a branch that no run takes.
    u64::from_le_bytes([
        number as u8,
        s.m as u8,
        s.r as u8,
        s.count as u8,
        s.k as u8,
        detail as u8,
        s.edition as u8,
        0,
    ])
}

// Writes the row of a message.
#[unsafe(no_mangle)]
pub extern "C" fn plq_encode(
    m: usize,
    r: usize,
    k: usize,
    points: &[u8],
    message: &[u8],
    row: &mut [u8],
) -> u64
    ensures { PackedEncoded m r k points.now message.now row.old result row.new }
{
    pack(rows::encode(m, r, k, points, message, row))
}

// Finds the message near to a row, and the depth of damage in each chunk.
#[unsafe(no_mangle)]
pub extern "C" fn plq_decode(
    m: usize,
    r: usize,
    k: usize,
    points: &[u8],
    row: &[u8],
    message: &mut [u8],
    depths: &mut [u8],
) -> u64
    ensures { PackedDecoded m r k points.now row.now message.old depths.old result message.new depths.new }
{
    pack(decode::decode(m, r, k, points, row, message, depths))
}

// Measures the distance of two rows.
#[unsafe(no_mangle)]
pub extern "C" fn plq_distance(r: usize, a: &[u8], b: &[u8]) -> u64
    ensures { result ≡ packed (distance_answer r a.now b.now) }
{
    pack(rows::distance(r, a, b))
}

// Writes a code and a row as a slip of an edition.
#[unsafe(no_mangle)]
pub extern "C" fn plq_slip_write(
    edition: usize,
    m: usize,
    r: usize,
    k: usize,
    points: &[u8],
    row: &[u8],
    bytes: &mut [u8],
) -> u64
    ensures { PackedWritten edition m r k points.now row.now bytes.old result bytes.new }
{
    pack(slip::slip_write(edition, m, r, k, points, row, bytes))
}

// Reads a slip.
#[unsafe(no_mangle)]
pub extern "C" fn plq_slip_read(bytes: &[u8], points: &mut [u8], row: &mut [u8]) -> u64
    ensures { PackedRead bytes.now points.old row.old result points.new row.new }
{
    pack_read(slip::slip_read(bytes, points, row))
}

// Writes the line that slipread prints for a slip.
#[unsafe(no_mangle)]
pub extern "C" fn plq_line(bytes: &[u8], text: &mut [u8]) -> u64
    ensures { PackedLined bytes.now text.old result text.new }
{
    pack(line::line(bytes, text))
}

// Finds the first slip of a roll.
#[unsafe(no_mangle)]
pub extern "C" fn plq_roll_first(roll: &[u8]) -> u64
    ensures { result ≡ packed_roll roll.now }
{
    let number = answers::number_in(roll::roll_answer(roll));
    let size = roll::first_size(roll);
    join(number, size)
}

// Turns a slip of edition 1 into one of edition 2.
#[unsafe(no_mangle)]
pub extern "C" fn plq_to_new(slip: &[u8], bytes: &mut [u8]) -> u64
    ensures { PackedTurned 1 2 slip.now bytes.old result bytes.new }
{
    pack(turn::to_new(slip, bytes))
}

// And back.
#[unsafe(no_mangle)]
pub extern "C" fn plq_to_old(slip: &[u8], bytes: &mut [u8]) -> u64
    ensures { PackedTurned 2 1 slip.now bytes.old result bytes.new }
{
    pack(turn::to_old(slip, bytes))
}

// Reads a text of levels into a row.
#[unsafe(no_mangle)]
pub extern "C" fn plq_levels_read(m: usize, r: usize, text: &[u8], row: &mut [u8]) -> u64
    ensures { PackedLevelsRead m r text.now row.old result row.new }
{
    pack_line(levels::levels_read(m, r, text, row))
}

// Writes the levels of a row as a text.
#[unsafe(no_mangle)]
pub extern "C" fn plq_levels_write(m: usize, r: usize, row: &[u8], text: &mut [u8]) -> u64
    ensures { PackedLevelsWritten m r row.now text.old result text.new }
{
    pack(levels::levels_write(m, r, row, text))
}
