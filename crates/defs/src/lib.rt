// The types that the calls exchange. The definitions that contracts cite are in specs/; no function is written here.
#![tactic(auto)]

ghost use Rattle.std.specs.Prelude.{◌≡◌, ◌≤◌, length, take};
ghost use Rattle.defs.specs.Limits.{longest, Inside};

// The symbols that a chunk may have.
pub const DEEPEST: usize = 8;

// The symbols that a row may have, and so the points and the message.
pub const LONGEST: usize = 240;

// Why a call is refused: a variant for each number (14 and 16 are none), with the place in 5, 6 and 8 and the line in 17 and 18.
#[derive(Clone, Copy, Debug, PartialEq, Eq)]
pub enum Refusal {
    Field,
    Depth,
    Points,
    Dimension,
    PointHigh(usize),
    PointTwice(usize),
    Length,
    SymbolHigh(usize),
    TooFar,
    SlipShort,
    Edition,
    SlipLong,
    SlipBits,
    RowLong,
    LevelLine(usize),
    LevelHigh(usize),
}

// A code that has passed its check, with its points inside it, unused ones zero. count is the number of points. There is no heap, so the points have the room of
// the longest row.
#[derive(Clone, Copy)]
pub struct Code {
    pub m: usize,
    pub r: usize,
    pub k: usize,
    pub count: usize,
    pub points: [u8; LONGEST],
    pub ghost room: { length points ≡ longest },
    pub ghost counted: { count ≤ longest },
    pub ghost inside: { Inside m r k (take count points) },
}

// How an edition lays out a slip: its number, the bits of n' - 1 and of k - 1, the zero bits behind them, and the longest row that it holds.
#[derive(Clone, Copy)]
pub struct Layout {
    pub edition: usize,
    pub countbits: usize,
    pub kbits: usize,
    pub zerobits: usize,
    pub top: usize,
}

// What the slip reader says of a slip: its edition and the code's numbers.
#[derive(Clone, Copy)]
pub struct SlipRead {
    pub edition: usize,
    pub m: usize,
    pub r: usize,
    pub count: usize,
    pub k: usize,
}
