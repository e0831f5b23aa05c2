// The two editions of slips, and how each lays one out: the bits of its fields, and its size.
ghost use Rattle.std.specs.Prelude.{◌≡◌, false, ◌*◌, ◌<◌, ◌≤◌, MatchOption};
ghost use Rattle.defs.specs.Limits.{longest};
ghost use Rattle.defs.specs.Slip.{layout_of, head_bits, slip_size, width_of, field_code};
ghost use Rattle.slip.specs.Laid.{Laid};
ghost use Rattle.slip.specs.Edition.{number, layout, Known};

use defs::{LONGEST, Layout, Refusal};
use field::Field;

// The editions that are known.
#[derive(Clone, Copy)]
pub enum Edition {
    Old,
    New,
}

impl TryFrom<usize> for Edition {
    type Error = Refusal;

    ghost try_from_gives = { Known };

    // 11 on a number of no known edition.
    fn try_from(edition: usize) -> Result<Edition, Refusal> {
        match edition {
            1 => Ok(Edition::Old),
            2 => Ok(Edition::New),
            _ => Err(Refusal::Edition),
        }
    }
}

impl Edition {
    // Its number.
    pub fn number(self) -> usize
        ensures { result ≡ number self }
    {
        match self {
            Edition::Old => 1,
            Edition::New => 2,
        }
    }

    // How its slips are laid out.
    pub fn layout(self) -> Layout
        ensures value { result ≡ layout self }
        ensures laid { Laid result }
    {
        match self {
            Edition::Old => Layout {
                edition: 1,
                countbits: 7,
                kbits: 7,
                zerobits: 1,
                top: 128,
            },
            Edition::New => Layout {
                edition: 2,
                countbits: 8,
                kbits: 8,
                zerobits: 7,
                top: LONGEST,
            },
        }
    }

    // The bits before the points.
    pub(crate) fn head_bits(self) -> usize
        ensures { result ≡ head_bits (layout self) }
    {
        let layout = self.layout();
        9 + layout.countbits + layout.kbits + layout.zerobits
    }

    // The bytes of a slip with so many points and symbols in all.
    pub(crate) fn slip_size(self, m: usize, symbols: usize) -> usize
        requires { (m ≤ 8) × (symbols ≤ 2 * longest) }
        ensures { result ≡ slip_size (layout self) m symbols }
    {
        self.head_bits() / 8 + (symbols * m + 7) / 8
    }
}

// The layout of the edition with this number. A number of no known edition has the old layout, as in the definition, so that none is refused here.
pub fn layout_of(edition: usize) -> Layout
    ensures { result ≡ layout_of edition }
{
    Edition::try_from(edition).unwrap_or(Edition::Old).layout()
}

// The code of a field: 0, 1, 2 for m of 2, 4, 8.
pub(crate) fn field_code(field: Field) -> usize
    ensures { (result ≡ field_code field.m) × (result < 4) }
{
    match field.m {
        2 => 0,
        4 => 1,
        _ => 2,
    }
}

// The field of a code.
pub(crate) fn field_coded(code: usize) -> Option<Field>
    ensures { MatchOption result (width_of code ≡ 0) (λ f. f.m ≡ width_of code) }
{
    match code {
        0 => Some(Field { m: 2 }),
        1 => Some(Field { m: 4 }),
        2 => Some(Field { m: 8 }),
        _ => None,
    }
}
