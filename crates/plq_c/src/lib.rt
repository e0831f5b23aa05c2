// The functions for C, which make up the archive: each is one call of plq's function of its name, and promises the same.
// The C interface wants each of them here once more, since an archive holds the exports of its own crate alone.
#![tactic(auto)]

ghost use Rattle.std.specs.Prelude.{◌≡◌};
ghost use Rattle.defs.specs.Encode.{distance_answer};
ghost use Rattle.plq.specs.Packed.{packed, packed_roll, PackedEncoded, PackedDecoded, PackedWritten, PackedRead, PackedLined, PackedTurned, PackedLevelsRead, PackedLevelsWritten};

// Writes the row of a message.
#[unsafe(no_mangle)]
pub extern "C" fn plq_encode(
    m: usize,
    r: usize,
    k: usize,
    points: &[u8],
    message: &[u8],
    row: &mut [u8],
) -> u64
    ensures { PackedEncoded m r k points.now message.now row.old result row.new }
{
    plq::plq_encode(m, r, k, points, message, row)
}

// Finds the message near to a row, and the depth of damage in each chunk.
#[unsafe(no_mangle)]
pub extern "C" fn plq_decode(
    m: usize,
    r: usize,
    k: usize,
    points: &[u8],
    row: &[u8],
    message: &mut [u8],
    depths: &mut [u8],
) -> u64
    ensures { PackedDecoded m r k points.now row.now message.old depths.old result message.new depths.new }
{
    plq::plq_decode(m, r, k, points, row, message, depths)
}

// Measures the distance of two rows.
#[unsafe(no_mangle)]
pub extern "C" fn plq_distance(r: usize, a: &[u8], b: &[u8]) -> u64
    ensures { result ≡ packed (distance_answer r a.now b.now) }
{
    plq::plq_distance(r, a, b)
}

// Writes a code and a row as a slip of an edition.
#[unsafe(no_mangle)]
pub extern "C" fn plq_slip_write(
    edition: usize,
    m: usize,
    r: usize,
    k: usize,
    points: &[u8],
    row: &[u8],
    bytes: &mut [u8],
) -> u64
    ensures { PackedWritten edition m r k points.now row.now bytes.old result bytes.new }
{
    plq::plq_slip_write(edition, m, r, k, points, row, bytes)
}

// Reads a slip.
#[unsafe(no_mangle)]
pub extern "C" fn plq_slip_read(bytes: &[u8], points: &mut [u8], row: &mut [u8]) -> u64
    ensures { PackedRead bytes.now points.old row.old result points.new row.new }
{
    plq::plq_slip_read(bytes, points, row)
}

// Writes the line that slipread prints for a slip.
#[unsafe(no_mangle)]
pub extern "C" fn plq_line(bytes: &[u8], text: &mut [u8]) -> u64
    ensures { PackedLined bytes.now text.old result text.new }
{
    plq::plq_line(bytes, text)
}

// Finds the first slip of a roll.
#[unsafe(no_mangle)]
pub extern "C" fn plq_roll_first(roll: &[u8]) -> u64
    ensures { result ≡ packed_roll roll.now }
{
    plq::plq_roll_first(roll)
}

// Turns a slip of edition 1 into one of edition 2.
#[unsafe(no_mangle)]
pub extern "C" fn plq_to_new(slip: &[u8], bytes: &mut [u8]) -> u64
    ensures { PackedTurned 1 2 slip.now bytes.old result bytes.new }
{
    plq::plq_to_new(slip, bytes)
}

// And back.
#[unsafe(no_mangle)]
pub extern "C" fn plq_to_old(slip: &[u8], bytes: &mut [u8]) -> u64
    ensures { PackedTurned 2 1 slip.now bytes.old result bytes.new }
{
    plq::plq_to_old(slip, bytes)
}

// Reads a text of levels into a row.
#[unsafe(no_mangle)]
pub extern "C" fn plq_levels_read(m: usize, r: usize, text: &[u8], row: &mut [u8]) -> u64
    ensures { PackedLevelsRead m r text.now row.old result row.new }
{
    plq::plq_levels_read(m, r, text, row)
}

// Writes the levels of a row as a text.
#[unsafe(no_mangle)]
pub extern "C" fn plq_levels_write(m: usize, r: usize, row: &[u8], text: &mut [u8]) -> u64
    ensures { PackedLevelsWritten m r row.now text.old result text.new }
{
    plq::plq_levels_write(m, r, row, text)
}
