// Decoding: the quotient of a pair, measured against the row; and the call.
#![tactic(auto)]

ghost use Rattle.std.specs.Prelude.{◌≡◌, length};
ghost use Rattle.defs.specs.Decode.{Decoded};
ghost use Rattle.pair.specs.Found.{IsRow};
ghost use Rattle.decode.specs.Search.{rest_verdict, Candidate, Sent, IsSought, Measured};

use defs::{Code, LONGEST, Refusal};
use rows::TwoRows;

// The row of a message of the code, of n symbols.
fn row_of(code: &Code, message: &[u8], n: usize) -> [u8; LONGEST]
    requires { Candidate code.now message.now n }
    ensures { Sent code.now message.now n result }
{
    let mut row = [0; LONGEST];
    rows::write_row(code, &message[..code.k], &mut row[..n]);
    row
}

// A message near to a row, and its own row. There is no heap, so both have the room of the longest row.
#[derive(Drop)]
pub struct Sought {
    pub message: [u8; LONGEST],
    pub row: [u8; LONGEST],
}

// Looks for the message near to a row: the quotient of a pair, measured.
// Code and row stand side by side here and in pair's two functions: a struct of both would be made for them alone, and read field by field in each.
fn seek(code: &Code, row: &[u8]) -> Option<Sought>
    requires { IsRow code.now row.now }
    ensures { IsSought code.now row.now result }
{
    let n = row.len();
    let reach = pair::radius(n, code.k);
    // No `?`, so that the way out without a pair can be read.
    let Some(found) = pair::find_pair(code, row) else {
        return None; // no pair exists
    };
    let message = quotient::quotient(code::field_of(code), code.k, found.first(), found.second());
    let sent = row_of(code, &message, n);
    let compared = TwoRows {
        r: code.r,
        count: code.count,
        a: &sent[..n],
        b: row,
    };
    let d = compared.distance();
    if reach < d {
        return None;
    }
    Some(Sought { message, row: sent })
}

// Writes the depth of damage in each chunk, and answers their sum.
fn write_depths(rows: &TwoRows, depths: &mut [u8]) -> usize
    requires { length depths.old ≡ rows.now.count }
    ensures { let w = rows.now in Measured w.r w.a.now w.b.now w.count result depths.new }
{
    let mut total = 0;
    for (i, depth) in depths.iter_mut().enumerate() {
        let d = rows.damage(i);
        // It fits, as is proved; try_from would bring a branch that no run takes.
        *depth = d as u8;
        total += d;
    }
    total
}

// 7 and 8: as many symbols as the code's rows have, and room for its message and for the depths of its chunks.
fn check_rest(code: &Code, row: &[u8], size: usize, deep: usize) -> Result<(), Refusal>
    ensures { result ≡ rest_verdict code.now row.now size deep }
{
    if row.len() != code.r * code.count || size != code.k || deep != code.count {
        return Err(Refusal::Length);
    }
    code::check_symbols(code::field_of(code), row)
}

// Decodes a row to the message near to it, or refuses and leaves both buffers as they were.
// The numbers come loose, since nothing is known of them before the checks.
pub fn decode(
    m: usize,
    r: usize,
    k: usize,
    points: &[u8],
    row: &[u8],
    message: &mut [u8],
    depths: &mut [u8],
) -> Result<usize, Refusal>
    ensures { Decoded m r k points.now row.now message.old depths.old result message.new depths.new }
{
    let code = code::check_code(m, r, k, points)?;
    check_rest(&code, row, message.len(), depths.len())?;
    let sought = seek(&code, row).ok_or(Refusal::TooFar)?;
    message.copy_from_slice(&sought.message[..code.k]);
    let compared = TwoRows {
        r: code.r,
        count: code.count,
        a: &sought.row[..row.len()],
        b: row,
    };
    Ok(write_depths(&compared, depths))
}
