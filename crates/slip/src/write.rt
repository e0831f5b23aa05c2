// The writer of slips.
ghost use Rattle.std.specs.Prelude.{◌≡◌, ◌++◌, ◌+◌, ◌*◌, ◌^◌, ◌<◌, ◌≤◌, length, get_or};
ghost use Rattle.defs.specs.Place.{Symbols};
ghost use Rattle.defs.specs.Limits.{Within};
ghost use Rattle.defs.specs.Slip.{all_bits, number_at, head_bits, longest_slip};
ghost use Rattle.defs.specs.Write.{front, Written};
ghost use Rattle.slip.specs.Edition.{layout};
ghost use Rattle.slip.specs.Head.{header_bits, Fitting};

use crate::layout;
use crate::layout::Edition;
use defs::Refusal;
use field::Field;

// What is written as a slip: a code and a row of it, in an edition.
#[derive(Clone, Copy)]
struct Slip<'a> {
    edition: Edition,
    field: Field,
    r: usize,
    k: usize,
    points: &'a [u8],
    row: &'a [u8],
    ghost within: { Within (layout edition).top field.m r k points.now },
    ghost fits: { Fitting (layout edition) r k (length points.now) },
    ghost symbols: { Symbols field.m row.now },
    ghost whole: { length row.now ≡ r * length points.now },
}

// A number of so many bits behind another.
fn behind(h: usize, width: usize, x: usize) -> usize
    requires { (h < 2 ^ 32) × (width ≤ 8) × (x < 2 ^ 32) }
    ensures { (result ≡ h * 2 ^ width + x) × (result ≤ h * 256 + x) }
{
    (h << width) + x
}

impl Slip<'_> {
    ghost use Rattle.slip.specs.Written.{bits_of, size_of, bytes_of};

    // The header as a number: edition, field, r - 1, n' - 1, k - 1 and the zero bits.
    fn header(&self) -> usize
        ensures { let L = layout self.now.edition in result ≡ number_at (head_bits L) 0 (header_bits L self.now.field.m self.now.r self.now.k (length self.now.points.now)) }
    {
        let layout = self.edition.layout();
        let field = layout::field_code(self.field);
        let fixed = (layout.edition * 4 + field) * 8 + (self.r - 1);
        let counted = behind(fixed, layout.countbits, self.points.len() - 1);
        let whole = behind(counted, layout.kbits, self.k - 1);
        behind(whole, layout.zerobits, 0)
    }

    // The symbol at j of the points and then the row; the fill behind them is 0.
    fn symbol(&self, j: usize) -> u8
        ensures { result ≡ get_or (self.now.points.now ++ self.now.row.now) j 0 }
    {
        match self.points.get(j) {
            Some(&symbol) => symbol,
            None => self.row.get(j - self.points.len()).copied().unwrap_or(0),
        }
    }

    // The byte at i of the packed points and symbols, 8 / m of them.
    fn pack(&self, i: usize) -> u8
        requires { i < 2 ^ 32 }
        ensures { result ≡ number_at 8 (8 * i) (all_bits self.now.field.m (self.now.points.now ++ self.now.row.now)) }
    {
        let size = self.field.size();
        let each = 8 / self.field.m;
        let mut byte = 0;
        for j in 0..each {
            byte = byte * size + usize::from(self.symbol(each * i + j));
        }
        // It fits, as is proved; try_from would bring a branch that no run takes.
        byte as u8
    }

    // The byte at i of the slip.
    fn byte(&self, i: usize) -> u8
        requires { i < 2 ^ 32 }
        ensures { result ≡ number_at 8 (8 * i) (bits_of self.now) }
    {
        let first = self.edition.head_bits() / 8;
        if first <= i {
            return self.pack(i - first);
        }
        // It fits, as is proved; try_from would bring a branch that no run takes.
        ((self.header() >> (8 * (first - 1 - i))) % 256) as u8
    }

    // How many bytes it has.
    fn size(&self) -> usize
        ensures { (result ≡ size_of self.now) × (result ≤ longest_slip) }
    {
        self.edition
            .slip_size(self.field.m, self.points.len() + self.row.len())
    }

    // Writes it to the front of a buffer that has room for it, and says its size.
    fn fill(&self, bytes: &mut [u8]) -> usize
        requires { size_of self.now ≤ length bytes.old }
        ensures size { result ≡ size_of self.now }
        ensures written { bytes.new ≡ front (bytes_of self.now) bytes.old }
    {
        let size = self.size();
        for (i, byte) in bytes[..size].iter_mut().enumerate() {
            *byte = self.byte(i);
        }
        size
    }
}

// Writes a code and a row as a slip of an edition: 11; 1 to 6; 7 for the row, then for the bytes; 8. Done with the slip's size.
// The numbers come loose, since nothing is known of them before the checks.
pub fn slip_write(
    edition: usize,
    m: usize,
    r: usize,
    k: usize,
    points: &[u8],
    row: &[u8],
    bytes: &mut [u8],
) -> Result<usize, Refusal>
    ensures { Written edition m r k points.now row.now bytes.old result bytes.new }
{
    let edition = Edition::try_from(edition)?;
    let layout = edition.layout();
    code::check_numbers(layout.top, m, r, k, points.len())?;
    let _ = code::check_code(m, r, k, points)?;
    if row.len() != r * points.len() {
        return Err(Refusal::Length);
    }
    if bytes.len() < edition.slip_size(m, points.len() + row.len()) {
        return Err(Refusal::Length);
    }
    let field = Field { m };
    code::check_symbols(field, row)?;
    let slip = Slip {
        edition,
        field,
        r,
        k,
        points,
        row,
    };
    Ok(slip.fill(bytes))
}
