// The pair of polynomials that meets the equations of a row (formula 9 of the paper), or the proof that there is none.
// The equations stand in a working table, an unknown to a column: the coefficients of Q0, then those of Q1. Row i * r + j has depth j of chunk i.
#![tactic(auto)]

mod sizes;

ghost use Rattle.std.specs.Prelude.{◌≡◌, ℕ, ◌+◌, ◌*◌, ◌^◌, ◌<◌, ◌≤◌, length, get_or, take};
ghost use Rattle.defs.specs.Place.{tab, Symbols};
ghost use Rattle.defs.specs.Distance.{radius as radiusOf};
ghost use Rattle.defs.specs.Limits.{longest};
ghost use Rattle.code.specs.Checked.{points_of};
ghost use Rattle.solve.specs.Table.{stride, at};
ghost use Rattle.solve.specs.System.{free};
ghost use Rattle.pair.specs.Equation.{deeper, power_at};
ghost use Rattle.pair.specs.Fill.{look, Powers, Added, Chunk, System};
ghost use Rattle.pair.specs.Found.{IsRow, q₀, q₁, Found};

use defs::{Code, LONGEST};
use field::{Field, add_products};
use sizes::Sizes;
use solve::{Extent, STRIDE, TABLE, Table};

// A pair: the first entries of q0 and q1 are its coefficients. There is no heap, so each has the room of the longest row.
#[derive(Drop)]
pub struct Pair {
    sizes: Sizes,
    q0: [u8; LONGEST],
    q1: [u8; LONGEST],
}

impl Pair {
    // The coefficients of Q0.
    pub fn first(&self) -> &[u8]
        ensures { result.now ≡ q₀ self.now }
    {
        &self.q0[..self.sizes.s0]
    }

    // The coefficients of Q1.
    pub fn second(&self) -> &[u8]
        ensures { result.now ≡ q₁ self.now }
    {
        &self.q1[..self.sizes.s1]
    }
}

// Writes what a depth asks of the unknowns in a row, by what the depth above it asks; it asks `first` of the first one.
fn write_depth(row: &mut [u8], above: &[u8], first: u8, products: &[u8; 256])
    requires { length above.now ≡ length row.old }
    ensures { row.new ≡ tab (deeper (look products.now) first (look above.now)) (length row.old) }
{
    let mut x = first;
    for (a, entry) in row.iter_mut().enumerate() {
        *entry = x;
        x = above[a] ^ products[usize::from(x)];
    }
}

// Writes what each depth at a point asks of n unknowns, a row for each.
fn write_depths(rows: &mut [u8], field: Field, point: u8, r: usize, n: usize)
    requires symbols { Symbols field.m rows.old }
    requires point { point < 2 ^ field.m }
    requires depths { 0 < r }
    requires rows { length rows.old ≡ r * stride }
    requires unknowns { n ≤ stride }
    ensures { Powers field.m point r n rows.old rows.new }
{
    let products = field.product_row(point);
    write_depth(&mut rows[..n], &[0; STRIDE][..n], 1, &products);
    for j in 1..r {
        let (before, row) = rows.split_at_mut(j * STRIDE);
        let above = (j - 1) * STRIDE;
        write_depth(&mut row[..n], &before[above..above + n], 0, &products);
    }
}

// Adds x times what depth j - b asks of Q0's first coefficients to what depth j asks of Q1's, for each depth j from b on.
// Rows, field and sizes are of every function here; x, b and r of this one, and a struct of the three would have one user.
fn add_multiple(rows: &mut [u8], field: Field, sizes: Sizes, x: u8, b: usize, r: usize)
    requires symbols { Symbols field.m rows.old }
    requires symbol { x < 2 ^ field.m }
    requires depth { b < r }
    requires rows { length rows.old ≡ r * stride }
    ensures { Added field.m x b r sizes.s0 sizes.s1 rows.old rows.new }
{
    let Sizes { s0, s1 } = sizes;
    let products = field.product_row(x);
    for j in b..r {
        let (before, row) = rows.split_at_mut(j * STRIDE + s0);
        let lower = (j - b) * STRIDE;
        add_products(&mut row[..s1], &before[lower..lower + s1], &products);
    }
}

// Writes the equations of a chunk at a point into rows of zeros.
fn write_chunk(rows: &mut [u8], field: Field, sizes: Sizes, point: u8, chunk: &[u8])
    requires symbols { Symbols field.m chunk.now }
    requires point { point < 2 ^ field.m }
    requires depths { 0 < length chunk.now }
    requires rows { length rows.old ≡ length chunk.now * stride }
    requires zeros { (k : ℕ) → get_or rows.old k 0 ≡ 0 }
    ensures { let r = length chunk.now in Chunk field.m r sizes.s0 sizes.s1 point (look chunk.now) r rows.new }
{
    let r = chunk.len();
    write_depths(rows, field, point, r, sizes.s0);
    // By a range, so that where it begins can be read.
    for b in 0..r {
        add_multiple(rows, field, sizes, chunk[b], b, r);
    }
}

// Writes the equations of a row into a table of zeros.
fn write_system(t: &mut [u8; TABLE], code: &Code, sizes: Sizes, row: &[u8])
    requires row { IsRow code.now row.now }
    requires zeros { (k : ℕ) → get_or t.old k 0 ≡ 0 }
    ensures { System code.now.m code.now.r sizes.s0 sizes.s1 code.now.count (points_of code.now) row.now t.new }
{
    let field = code::field_of(code);
    let r = code.r;
    for i in 0..code.count {
        let from = i * r;
        let to = from + r;
        let rows = &mut t[from * STRIDE..to * STRIDE];
        write_chunk(rows, field, sizes, code.points[i], &row[from..to]);
    }
}

// The n unknowns from the first on, in the solution that an elimination with the free unknown c leaves.
fn unknowns(t: &Table, c: usize, first: usize, n: usize) -> [u8; LONGEST]
    requires { (c < stride) × (first + n ≤ stride) × (n ≤ longest) }
    ensures { take n result ≡ tab (λ a. free (at t.now.entries) c (first + a)) n }
{
    let mut q = [0u8; LONGEST];
    for (a, coefficient) in q[..n].iter_mut().enumerate() {
        *coefficient = t.unknown(c, first + a);
    }
    q
}

// How far a row of n symbols may be from that of a message of k.
pub fn radius(n: usize, k: usize) -> usize
    requires { k ≤ n }
    ensures { result ≡ radiusOf n k }
{
    (n - k) / 2
}

// Q0 and Q1, not both zero, with as many coefficients as formula 9 allows, such that at every point the first r coefficients of Q0 + w_i Q1 vanish;
// or there are none.
pub fn find_pair(code: &Code, row: &[u8]) -> Option<Pair>
    requires { IsRow code.now row.now }
    ensures { Found code.now.m code.now.r code.now.k (points_of code.now) row.now result }
{
    let n = row.len();
    let sizes = Sizes::of(n, code.k);
    let Sizes { s0, s1 } = sizes;
    let mut table = Table {
        extent: Extent {
            field: code::field_of(code),
            rows: n,
            cols: s0 + s1,
        },
        entries: [0; TABLE],
    };
    write_system(&mut table.entries, code, sizes, row);
    // No `?`, so that the way out without a pair can be read.
    let Some(c) = table.eliminate() else {
        return None; // only zeros solve the equations
    };
    Some(Pair {
        sizes,
        q0: unknowns(&table, c, 0, s0),
        q1: unknowns(&table, c, s0, s1),
    })
}
