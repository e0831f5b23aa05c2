// Elimination over a field, to the first column that depends on those before it.
// A system's rows stand in a working table, one after the other; its last rows and columns may be unused.
#![tactic(auto)]

mod multiples;

ghost use Rattle.std.specs.Prelude.{◌≡◌, ℕ, ◌+◌, ◌<◌, ◌≤◌, ◌^◌};
ghost use Rattle.defs.specs.Limits.{longest};
ghost use Rattle.defs.specs.Place.{Symbols};
ghost use Rattle.solve.specs.Table.{stride, at};
ghost use Rattle.solve.specs.System.{free};
ghost use Rattle.solve.specs.Step.{IsPivot, Pivot, Added, Alike, Stairs, Leads, Spread, Back};
ghost use Rattle.solve.specs.Answer.{Answers};

use defs::LONGEST;
use field::Field;
use multiples::{Columns, RowMultiples};

// The entries of a row of the working table, and those of the whole table.
pub const STRIDE: usize = LONGEST + 1;

pub const TABLE: usize = LONGEST * STRIDE;

// How far a system reaches: a row for each equation, a column for each unknown.
#[derive(Clone, Copy)]
pub struct Extent {
    pub field: Field,
    pub rows: usize,
    pub cols: usize,
    pub ghost rows_fit: { rows ≤ longest },
    pub ghost cols_fit: { cols ≤ stride },
}

// The working table, with a system in its first rows and columns.
#[derive(Drop)]
pub struct Table {
    pub extent: Extent,
    pub entries: [u8; TABLE],
    pub ghost symbols: { Symbols extent.field.m entries },
}

impl Table {
    // The first row from c on with an entry that is not 0 in column c.
    fn find_pivot(&self, c: usize) -> Option<usize>
        requires { c < self.now.extent.cols }
        ensures { Pivot self.now.extent.rows c (at self.now.entries) result }
    {
        (c..self.extent.rows).find(|i| self.entries[*i * STRIDE + c] != 0)
    }

    // Adds row p times f to row r. Row p has 0 before column c, so the work starts there.
    // RowMultiples::add_to has a loop of its own: a closure for where the products come from would have to read the table that the loop changes.
    fn add_row(&mut self, c: usize, r: usize, p: usize, f: u8)
        requires symbol { f < 2 ^ self.old.extent.field.m }
        requires to_row { r < longest }
        requires from_row { p < longest }
        requires column { c ≤ self.old.extent.cols }
        requires zero_before { (j : ℕ) → j < c → at self.old.entries p j ≡ 0 }
        ensures same_extent { self.new.extent ≡ self.old.extent }
        ensures added { let e = self.old.extent in Added e.field.m e.cols r p f (at self.old.entries) (at self.new.entries) }
    {
        let row = self.extent.field.product_row(f);
        let base = r * STRIDE;
        let from = p * STRIDE;
        for j in c..self.extent.cols {
            self.entries[base + j] ^= row[usize::from(self.entries[from + j])];
        }
    }

    // Makes the pivot in row p 1, and adds its row to row c, which has 0 there, unless it is row c.
    fn bring_pivot(&mut self, c: usize, p: usize)
        requires column { c < self.old.extent.cols }
        requires pivot { IsPivot self.old.extent.rows c (at self.old.entries) p }
        requires stairs { Stairs self.old.extent.rows c (at self.old.entries) }
        ensures same_extent { self.new.extent ≡ self.old.extent }
        ensures alike { let e = self.old.extent in Alike e.field.m e.rows e.cols (at self.old.entries) (at self.new.entries) }
        ensures leads { Leads self.old.extent.rows c (c + 1) (at self.new.entries) }
    {
        let a = self.extent.field.inverse(self.entries[p * STRIDE + c]);
        // Adding a row to itself scales it: x + (a + 1) x = a x.
        self.add_row(c, p, p, a ^ 1);
        if p != c {
            self.add_row(c, c, p, 1);
        }
    }

    // Clears column c in the rows after row c, which has 1 there.
    fn clear_below(&mut self, c: usize)
        requires row { c < self.old.extent.rows }
        requires column { c < self.old.extent.cols }
        requires leads { Leads self.old.extent.rows c (c + 1) (at self.old.entries) }
        ensures same_extent { self.new.extent ≡ self.old.extent }
        ensures alike { let e = self.old.extent in Alike e.field.m e.rows e.cols (at self.old.entries) (at self.new.entries) }
        ensures stairs { Stairs self.old.extent.rows (c + 1) (at self.new.entries) }
    {
        // Whole blocks of 16 entries are faster, and row c has 0 before column c.
        let columns = Columns {
            field: self.extent.field,
            start: c - c % 16,
            end: self.extent.cols,
        };
        let multiples = RowMultiples::of_row(self, columns, c);
        for i in c + 1..self.extent.rows {
            let f = self.entries[i * STRIDE + c];
            if f != 0 {
                multiples.add_to(self, i, c, f);
            }
        }
    }

    // Adds column k, times unknown k, to column c above row k.
    fn spread(&mut self, c: usize, k: usize)
        requires column { c < stride }
        requires before { k < c }
        ensures same_extent { self.new.extent ≡ self.old.extent }
        ensures spread { Spread self.old.extent.field.m c k (at self.old.entries) (at self.new.entries) }
    {
        let row = self.extent.field.product_row(self.entries[k * STRIDE + c]);
        for i in 0..k {
            let base = i * STRIDE;
            self.entries[base + c] ^= row[usize::from(self.entries[base + k])];
        }
    }

    // Puts the unknowns before c into column c, the last one first, where unknown c is 1 and those after it are 0.
    fn substitute(&mut self, c: usize)
        requires { c < stride }
        ensures same_extent { self.new.extent ≡ self.old.extent }
        ensures back { Back self.old.extent.field.m c (at self.old.entries) (at self.new.entries) }
    {
        for k in (0..c).rev() {
            self.spread(c, k);
        }
    }

    // Solves the system up to the first unknown that is free: its column then gives a solution that is not zero. Where none is free, only the
    // zero vector solves.
    pub fn eliminate(&mut self) -> Option<usize>
        ensures same_extent { self.new.extent ≡ self.old.extent }
        ensures answers { let e = self.old.extent in Answers e.field.m e.rows e.cols (at self.old.entries) (at self.new.entries) result }
    {
        for c in 0..self.extent.cols {
            let Some(p) = self.find_pivot(c) else {
                self.substitute(c);
                return Some(c);
            };
            self.bring_pivot(c, p);
            self.clear_below(c);
        }
        None
    }

    // Unknown j of the solution that an elimination with the free unknown c leaves.
    #[tactic(auto, unfolding(crate::specs::System::free))]
    pub fn unknown(&self, c: usize, j: usize) -> u8
        requires { c < stride }
        ensures { result ≡ free (at self.now.entries) c j }
    {
        if j < c {
            self.entries[j * STRIDE + c]
        } else if j == c {
            1
        } else {
            0
        }
    }
}
