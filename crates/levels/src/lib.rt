// Levels from the bench: a text with one whole number to a line, read into a row and written from one.
#![tactic(auto)]

mod level;
mod lines;

ghost use Rattle.std.specs.Prelude.{◌≡◌, ◌^◌, IfOk, length};
ghost use Rattle.defs.specs.Refusal.{verdict_of};
ghost use Rattle.defs.specs.Levels.{levels_of, levels_text, shape_verdict, LevelsRead, LevelsWritten};
ghost use Rattle.levels.specs.Base.{Leveled};

use defs::{LONGEST, Refusal};
use field::Field;
use level::Scale;
use text::Text;

// No text of a row has more bytes than this: at most three digits for each symbol, and a newline.
pub const ROOM: usize = 4 * LONGEST;

// 1, 2 and 7, on the length of a row.
fn check_shape(m: usize, r: usize, n: usize) -> Result<Scale, Refusal>
    ensures verdict { verdict_of result ≡ shape_verdict m r n }
    ensures scale { IfOk result (λ s. (s.field.m ≡ m) × (s.r ≡ r)) }
{
    let Some(field) = Field::of_width(m) else {
        return Err(Refusal::Field);
    };
    rows::check_lengths(r, n, n)?;
    Ok(Scale { field, r })
}

// Reads the levels of a text into a row, or refuses and leaves the buffer as it was.
pub fn levels_read(m: usize, r: usize, text: &[u8], row: &mut [u8]) -> Result<usize, Refusal>
    ensures { LevelsRead m r text.now row.old result row.new }
{
    let scale = check_shape(m, r, row.len())?;
    lines::check_lines(text, scale, row.len() / scale.r)?;
    lines::fill_row(text, scale, row);
    Ok(0)
}

// The levels of a row's chunks, one to a line.
fn text_of(scale: Scale, row: &[u8]) -> Text<ROOM>
    requires { Leveled scale.field.m scale.r row.now }
    ensures { result ≡ levels_text (levels_of (2 ^ scale.field.m) scale.r row.now) }
{
    let mut text = Text::new();
    for chunk in row.chunks_exact(scale.r) {
        text.put_number(scale.level_of(chunk));
        text.put(b'\n');
    }
    text
}

// Writes the levels of a row as a text, or refuses and leaves the buffer as it was.
pub fn levels_write(m: usize, r: usize, row: &[u8], text: &mut [u8]) -> Result<usize, Refusal>
    ensures { LevelsWritten m r row.now text.old result text.new }
{
    let scale = check_shape(m, r, row.len())?;
    code::check_symbols(scale.field, row)?;
    text_of(scale, row).hand_out(text)
}
