// The lines of a text: their checks in order, and the row of their levels.
ghost use Rattle.std.specs.Prelude.{◌≡◌, map, ◌+◌, ◌^◌, IfOk};
ghost use Rattle.defs.specs.Refusal.{verdict_of};
ghost use Rattle.defs.specs.Text.{digit_count};
ghost use Rattle.defs.specs.Levels.{lines, written, value_of, level_verdict, levels_row};
ghost use Rattle.levels.specs.Lines.{head_line, behind, text_checks, Fillable};

use crate::level::Scale;
use defs::Refusal;

// Whether the first line of a text, whose digits end at `end`, is written as it must be.
fn is_written(text: &[u8], end: usize) -> bool
    requires { end ≡ digit_count text.now }
    ensures { result ≡ written (head_line text.now) }
{
    if end == 0 || end == text.len() || text[end] != b'\n' {
        return false;
    }
    text[0] != b'0' || end == 1
}

// 17 and 18, on the first line of a text, which is line number `line`; else what stands behind it.
fn check_line(text: &[u8], line: usize, top: usize) -> Result<&[u8], Refusal>
    ensures verdict { verdict_of result ≡ level_verdict (top + 1) line (head_line text.now) }
    ensures behind { IfOk result (λ s. s.now ≡ behind text.now) }
{
    let n = text::read_number(text, top);
    if !is_written(text, n.end) {
        return Err(Refusal::LevelLine(line));
    }
    if n.value.is_none() {
        return Err(Refusal::LevelHigh(line));
    }
    Ok(&text[n.end + 1..])
}

// 17 and 18 on the lines in order, then 7 for their number.
pub fn check_lines(text: &[u8], scale: Scale, count: usize) -> Result<(), Refusal>
    ensures { result ≡ text_checks ((2 ^ scale.field.m) ^ scale.r) text.now count }
{
    let top = scale.highest();
    let mut rest = text;
    let mut line = 0;
    // A while over what is left: an iterator of lines would hand on a Result for each, and be longer than this loop.
    while !rest.is_empty() {
        rest = check_line(rest, line, top)?;
        line += 1;
    }
    if line != count {
        return Err(Refusal::Length);
    }
    Ok(())
}

// Writes the row of a text whose lines have passed the checks, chunk after chunk.
pub fn fill_row(text: &[u8], scale: Scale, row: &mut [u8])
    requires { Fillable text.now (2 ^ scale.field.m) scale.r row.old }
    ensures { row.new ≡ levels_row (2 ^ scale.field.m) scale.r (map value_of (lines text.now)) }
{
    let top = scale.highest();
    let r = scale.r;
    let mut rest = text;
    // By index, since what chunks_mut lends is not known to a proof afterwards.
    for i in 0..row.len() / r {
        let n = text::read_number(rest, top);
        // No level of a checked text is above the highest.
        scale.put_chunk(n.value.unwrap_or(0), &mut row[i * r..i * r + r]);
        rest = &rest[n.end + 1..];
    }
}
