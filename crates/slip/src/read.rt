// The reader of slips.
ghost use Rattle.std.specs.Prelude.{◌≡◌, ◌+◌, ◌*◌, ◌<◌, ◌≤◌, length, IfOk};
ghost use Rattle.defs.specs.Refusal.{fine, answer, verdict_of};
ghost use Rattle.defs.specs.Limits.{first_twice};
ghost use Rattle.defs.specs.Slip.{all_bits, number_at, edition_in, size_in, count_in, symbols_in, points_in, spare_in, fill_in};
ghost use Rattle.defs.specs.Read.{first_verdict, read_verdict, reading, Read};
ghost use Rattle.code.specs.Checked.{found};
ghost use Rattle.slip.specs.Head.{Heads};

use crate::layout;
use crate::layout::Edition;
use defs::{LONGEST, Refusal, SlipRead};
use field::Field;

// Bytes that begin with a slip, what its header says, and its size.
#[derive(Clone, Copy)]
struct Reader<'a> {
    bytes: &'a [u8],
    edition: Edition,
    field: Field,
    r: usize,
    count: usize,
    k: usize,
    size: usize,
    ghost begins: { first_verdict bytes.now ≡ fine },
    ghost heads: { Heads bytes.now edition field.m r count k },
    ghost sized: { size ≡ size_in bytes.now },
}

// The byte at i; past the end stands 0.
fn byte_at(bytes: &[u8], i: usize) -> usize
    ensures { (result ≡ number_at 8 (8 * i) (all_bits 8 bytes.now)) × (result < 256) }
{
    match bytes.get(i) {
        Some(&byte) => usize::from(byte),
        None => 0,
    }
}

// The number that stands in so many bits from this place on: in one byte, or in two.
fn number_at(bytes: &[u8], place: usize, width: usize) -> usize
    requires { width ≤ 8 }
    ensures { (result ≡ number_at width place (all_bits 8 bytes.now)) × (result < 256) }
{
    let first = byte_at(bytes, place / 8);
    let pair = first * 256 + byte_at(bytes, place / 8 + 1);
    (pair >> (16 - width - place % 8)) % (1 << width)
}

// The edition that stands in the bytes.
pub fn edition_in(bytes: &[u8]) -> usize
    ensures { result ≡ edition_in bytes.now }
{
    number_at(bytes, 0, 4)
}

// 10, 11, 10; 1, 3, 4; 10, on the header and the size: the slip that the bytes begin with.
fn open(bytes: &[u8]) -> Result<Reader<'_>, Refusal>
    ensures verdict { verdict_of result ≡ first_verdict bytes.now }
    ensures reader { IfOk result (λ s. s.bytes.now ≡ bytes.now) }
{
    if bytes.len() < 3 {
        return Err(Refusal::SlipShort);
    }
    let edition = Edition::try_from(edition_in(bytes))?;
    if bytes.len() < edition.head_bits() / 8 {
        return Err(Refusal::SlipShort);
    }
    let Some(field) = layout::field_coded(number_at(bytes, 4, 2)) else {
        return Err(Refusal::Field);
    };
    let layout = edition.layout();
    let r = number_at(bytes, 6, 3) + 1;
    let count = number_at(bytes, 9, layout.countbits) + 1;
    let k = number_at(bytes, 9 + layout.countbits, layout.kbits) + 1;
    code::check_numbers(layout.top, field.m, r, k, count)?;
    let size = edition.slip_size(field.m, count + r * count);
    if bytes.len() < size {
        return Err(Refusal::SlipShort);
    }
    Ok(Reader {
        bytes,
        edition,
        field,
        r,
        count,
        k,
        size,
    })
}

// The size of the slip that the bytes begin with.
pub fn first_size(bytes: &[u8]) -> Result<usize, Refusal>
    ensures { result ≡ answer (first_verdict bytes.now) (size_in bytes.now) }
{
    Ok(open(bytes)?.size)
}

impl Reader<'_> {
    // The symbols of its row.
    fn row_len(&self) -> usize
        ensures { result ≡ self.now.r * self.now.count }
    {
        self.r * self.count
    }

    // Fills a buffer with symbols that stand behind the header, past the first ones.
    fn take(&self, past: usize, out: &mut [u8])
        requires { past + length out.old ≤ self.now.count + self.now.r * self.now.count }
        ensures { out.new ≡ symbols_in self.now.bytes.now past (length out.old) }
    {
        let start = self.edition.head_bits();
        let m = self.field.m;
        for (j, symbol) in out.iter_mut().enumerate() {
            // It fits, as is proved; try_from would bring a branch that no run takes.
            *symbol = number_at(self.bytes, start + m * (past + j), m) as u8;
        }
    }

    // The least index of a point that equals an earlier one.
    fn twice(&self) -> Option<usize>
        ensures { result ≡ found (first_twice (points_in self.now.bytes.now)) (count_in self.now.bytes.now) }
    {
        let mut buffer = [0u8; LONGEST];
        let points = &mut buffer[..self.count];
        self.take(0, points);
        code::first_twice(points)
    }

    // What stands in the zero bits and in the fill behind the last symbol, added up.
    fn loose_bits(&self) -> usize
        ensures { result ≡ spare_in self.now.bytes.now + fill_in self.now.bytes.now }
    {
        let start = self.edition.head_bits();
        let zeros = self.edition.layout().zerobits;
        let used = start + self.field.m * (self.count + self.row_len());
        let left = 8 * self.size - used;
        number_at(self.bytes, start - zeros, zeros) + number_at(self.bytes, used, left)
    }

    // Then 12, 13, 6, 7. count and n are the lengths of slip_read's two buffers.
    fn check(&self, count: usize, n: usize) -> Result<(), Refusal>
        ensures { result ≡ read_verdict self.now.bytes.now count n }
    {
        if self.size < self.bytes.len() {
            return Err(Refusal::SlipLong);
        }
        let loose = self.loose_bits();
        if 0 < loose {
            return Err(Refusal::SlipBits);
        }
        if let Some(twice) = self.twice() {
            return Err(Refusal::PointTwice(twice));
        }
        if count < self.count || n < self.row_len() {
            return Err(Refusal::Length);
        }
        Ok(())
    }

    // The edition and the code's numbers, as they are handed out.
    fn numbers(&self) -> SlipRead
        ensures { reading fine self.now.bytes.now ≡ Ok result }
    {
        SlipRead {
            edition: self.edition.number(),
            m: self.field.m,
            r: self.r,
            count: self.count,
            k: self.k,
        }
    }
}

// Reads a slip into its edition, the code's numbers, its points and a row.
pub fn slip_read(bytes: &[u8], points: &mut [u8], row: &mut [u8]) -> Result<SlipRead, Refusal>
    ensures { Read bytes.now points.old row.old result points.new row.new }
{
    let slip = open(bytes)?;
    // No `?`, so that what is handed out on a refusal can be read.
    if let Err(x) = slip.check(points.len(), row.len()) {
        return Err(x);
    }
    slip.take(0, &mut points[..slip.count]);
    slip.take(slip.count, &mut row[..slip.row_len()]);
    Ok(slip.numbers())
}
