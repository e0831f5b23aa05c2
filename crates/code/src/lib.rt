// The check of a code: refusals 1 to 6 in their order, and the code as one value with its points inside it.
#![tactic(auto)]

mod buffer;
mod chunk;

ghost use Rattle.std.specs.Prelude.{◌≡◌, ◌≤◌, ◌^◌, length, nat_le, IfOk};
ghost use Rattle.std.specs.List.{position};
ghost use Rattle.defs.specs.Refusal.{verdict_of};
ghost use Rattle.defs.specs.Limits.{longest, numbers_verdict, first_twice, code_verdict};
ghost use Rattle.defs.specs.Encode.{symbols_verdict};
ghost use Rattle.code.specs.Checked.{found, padded, CodeOf};

pub use buffer::copy;
pub use chunk::chunk_of;
use defs::{Code, DEEPEST, LONGEST, Refusal};
use field::Field;

// The least index of a symbol outside the field.
pub fn first_high(field: Field, s: &[u8]) -> Option<usize>
    ensures { result ≡ position (λ x. nat_le (2 ^ field.m) x) s.now }
{
    let size = field.size();
    // By a range, so that where it ends can be read.
    for i in 0..s.len() {
        if size <= usize::from(s[i]) {
            return Some(i);
        }
    }
    None
}

// The least index whose point equals an earlier one. seen marks the points passed.
pub fn first_twice(points: &[u8]) -> Option<usize>
    ensures { result ≡ found (first_twice points.now) (length points.now) }
{
    let mut seen = [false; 256];
    for (i, &point) in points.iter().enumerate() {
        if seen[usize::from(point)] {
            return Some(i);
        }
        seen[usize::from(point)] = true;
    }
    None
}

// 8, on the symbols of a message or a row.
pub fn check_symbols(field: Field, s: &[u8]) -> Result<(), Refusal>
    ensures { result ≡ symbols_verdict field.m s.now }
{
    match first_high(field, s) {
        Some(high) => Err(Refusal::SymbolHigh(high)),
        None => Ok(()),
    }
}

// 1 to 4, on the numbers alone. top is the longest row allowed.
pub fn check_numbers(top: usize, m: usize, r: usize, k: usize, count: usize) -> Result<(), Refusal>
    ensures { result ≡ numbers_verdict top m r k count }
{
    let Some(field) = Field::of_width(m) else {
        return Err(Refusal::Field);
    };
    if r == 0 || DEEPEST < r {
        return Err(Refusal::Depth);
    }
    if count == 0 || field.size() < count || top < r * count {
        return Err(Refusal::Points);
    }
    if k == 0 || r * count < k {
        return Err(Refusal::Dimension);
    }
    Ok(())
}

// The points, with zeros behind them.
fn pad(points: &[u8]) -> [u8; LONGEST]
    requires { length points.now ≤ longest }
    ensures { result ≡ padded points.now }
{
    let mut padded = [0; LONGEST];
    copy(points, &mut padded);
    padded
}

// Checks m, r, k and a list of points, none of which is trusted.
pub fn check_code(m: usize, r: usize, k: usize, points: &[u8]) -> Result<Code, Refusal>
    ensures verdict { verdict_of result ≡ code_verdict longest m r k points.now }
    ensures code { IfOk result (λ c. CodeOf m r k points.now c) }
{
    check_numbers(LONGEST, m, r, k, points.len())?;
    if let Some(high) = first_high(Field { m }, points) {
        return Err(Refusal::PointHigh(high));
    }
    if let Some(twice) = first_twice(points) {
        return Err(Refusal::PointTwice(twice));
    }
    Ok(Code {
        m,
        r,
        k,
        count: points.len(),
        points: pad(points),
    })
}

// The field of a code's symbols.
pub fn field_of(code: &Code) -> Field
    ensures { result.m ≡ code.now.m }
{
    Field { m: code.m }
}
