// Multiples of a row, kept beside the working table so that any multiple of the row is the sum of two of them.
ghost use Rattle.std.specs.Prelude.{◌≡◌, ℕ, ◌<◌, ◌≤◌, ◌^◌, get_or};
ghost use Rattle.defs.specs.Limits.{longest};
ghost use Rattle.defs.specs.Place.{Symbols};
ghost use Rattle.solve.specs.Table.{stride, at};
ghost use Rattle.solve.specs.Step.{Added};
ghost use Rattle.solve.specs.Multiples.{Copied, Set, Filled, Multiples};

use crate::{STRIDE, Table};
use field::Field;

// The entries of the multiples of a row: its first 16, and the first 16 of 16 times the row.
const MULTIPLES: usize = 32 * STRIDE;

// The part of a row that is worked at: its entries from start to end - 1, over a field.
#[derive(Clone, Copy)]
pub struct Columns {
    pub field: Field,
    pub start: usize,
    pub end: usize,
    pub ghost ordered: { start ≤ end },
    pub ghost fit: { end ≤ stride },
}

// The multiples of a row in these columns, by rows of a table of their own.
#[derive(Drop)]
pub struct RowMultiples {
    pub columns: Columns,
    entries: [u8; MULTIPLES],
    pub ghost symbols: { Symbols columns.field.m entries },
}

impl RowMultiples {
    // Makes row x twice row half, with row one added.
    fn set_multiple(&mut self, x: usize, half: usize, one: usize)
        requires row { x < 32 }
        requires half_before { half < x }
        requires one_before { one < x }
        ensures same_columns { self.new.columns ≡ self.old.columns }
        ensures set { let k = self.old.columns in Set k.field.m k.start k.end x half one (at self.old.entries) (at self.new.entries) }
    {
        let to = x * STRIDE;
        let from = half * STRIDE;
        let other = one * STRIDE;
        let field = self.columns.field;
        for j in self.columns.start..self.columns.end {
            self.entries[to + j] = field.times2(self.entries[from + j]) ^ self.entries[other + j];
        }
    }

    // Makes the rows after row base, which is 0, the multiples of the first of them.
    fn fill(&mut self, base: usize)
        requires row { base ≤ 16 }
        requires zero { let k = self.old.columns in (j : ℕ) → k.start ≤ j → j < k.end → at self.old.entries base j ≡ 0 }
        ensures same_columns { self.new.columns ≡ self.old.columns }
        ensures filled { let k = self.old.columns in Filled k.field.m k.start k.end base 16 (at self.old.entries) (at self.new.entries) }
    {
        for x in 2..16 {
            self.set_multiple(base + x, base + x / 2, base + x % 2);
        }
    }

    // Makes row 1 of these, which are all 0, row c of the table.
    fn copy_row(&mut self, table: &Table, c: usize)
        requires row { c < longest }
        requires same_field { self.old.columns.field ≡ table.now.extent.field }
        requires zero { (k : ℕ) → get_or self.old.entries k 0 ≡ 0 }
        ensures same_columns { self.new.columns ≡ self.old.columns }
        ensures copied { let k = self.old.columns in Copied k.start k.end c (at table.now.entries) (at self.new.entries) }
    {
        let from = c * STRIDE;
        let Columns { start, end, .. } = self.columns;
        self.entries[STRIDE + start..STRIDE + end].copy_from_slice(
            &table.entries[from + start..from + end],
        );
    }

    // The multiples of row c by which every other multiple is a sum of two.
    pub fn of_row(table: &Table, columns: Columns, c: usize) -> RowMultiples
        requires row { c < longest }
        requires same_field { columns.field ≡ table.now.extent.field }
        ensures same_columns { result.columns ≡ columns }
        ensures multiples { Multiples columns.field.m columns.start columns.end (at table.now.entries c) (at result.entries) }
    {
        let mut multiples = RowMultiples {
            columns,
            entries: [0; MULTIPLES],
        };
        multiples.copy_row(table, c);
        multiples.fill(0);
        multiples.set_multiple(17, 8, 0);
        multiples.fill(16);
        multiples
    }

    // Adds row p times f to row r of the table, by the multiples of row p, which has 0 before the columns. Only the contract names p.
    pub fn add_to(&self, table: &mut Table, r: usize, p: usize, f: u8)
        requires same_field { self.now.columns.field ≡ table.old.extent.field }
        requires to_end { self.now.columns.end ≡ table.old.extent.cols }
        requires symbol { f < 2 ^ table.old.extent.field.m }
        requires to_row { r < longest }
        requires multiples { let k = self.now.columns in Multiples k.field.m k.start k.end (at table.old.entries p) (at self.now.entries) }
        requires zero_before { (j : ℕ) → j < self.now.columns.start → at table.old.entries p j ≡ 0 }
        ensures same_extent { table.new.extent ≡ table.old.extent }
        ensures added { let e = table.old.extent in Added e.field.m e.cols r p f (at table.old.entries) (at table.new.entries) }
    {
        let base = r * STRIDE;
        let low = usize::from(f % 16) * STRIDE;
        let high = usize::from(16 + f / 16) * STRIDE;
        for j in self.columns.start..self.columns.end {
            table.entries[base + j] ^= self.entries[low + j] ^ self.entries[high + j];
        }
    }
}
