// The line that slipread prints, from the bytes of a slip.
#![tactic(auto)]

ghost use Rattle.std.specs.Prelude.{◌≡◌, ◌++◌, ◌+◌, ◌≤◌, length};
ghost use Rattle.defs.specs.Line.{spaced, listed, heading, line_of, Line, Lined};
ghost use Rattle.line.specs.Text.{Taken, SlipLine};

use defs::{LONGEST, Refusal, SlipRead};
use text::Text;

// No line has more bytes than this: a message and depths of the longest row, and what stands around them.
pub const ROOM: usize = 6 * LONGEST + 8;

// Each number behind a space.
#[tactic(auto, unfolding(defs::specs::Line::spaced))]
fn put_all(text: &mut Text<ROOM>, s: &[u8])
    requires { length text.old + length (spaced s.now) ≤ ROOM }
    ensures { text.new ≡ text.old ++ spaced s.now }
{
    for &x in s {
        text.put_spaced(usize::from(x));
    }
}

// A bar and each number, all behind a space.
#[tactic(auto, unfolding(defs::specs::Line::listed))]
fn put_list(text: &mut Text<ROOM>, s: &[u8])
    requires { length text.old + length (listed s.now) ≤ ROOM }
    ensures { text.new ≡ text.old ++ listed s.now }
{
    text.put(b' ');
    text.put(b'|');
    put_all(text, s);
}

// Number and detail.
#[tactic(auto, unfolding(defs::specs::Line::heading))]
fn put_heading(text: &mut Text<ROOM>, a: Result<usize, Refusal>)
    requires { length text.old + length (heading a) ≤ ROOM }
    ensures { text.new ≡ text.old ++ heading a }
{
    text.put_number(answers::number_in(a));
    text.put_spaced(answers::detail_in(a));
}

// The line of an answer. Message and depths are those of one that is done.
#[tactic(auto, unfolding(defs::specs::Line::line_of))]
fn line_of(a: Result<usize, Refusal>, message: &[u8], depths: &[u8]) -> Text<ROOM>
    requires { length (line_of a message.now depths.now) ≤ ROOM }
    ensures { result ≡ line_of a message.now depths.now }
{
    let mut text = Text::new();
    put_heading(&mut text, a);
    if a.is_ok() {
        put_list(&mut text, message);
        put_list(&mut text, depths);
    }
    text.put(b'\n');
    text
}

// The line of a slip that was read: its points and its row stand in front of two buffers.
fn slip_line(s: SlipRead, points: &[u8], row: &[u8]) -> Text<ROOM>
    requires { Taken s points.now row.now }
    ensures { SlipLine s points.now row.now result }
{
    // There is no heap, so both have the room of the longest row.
    let mut message = [0; LONGEST];
    let mut depths = [0; LONGEST];
    let message = &mut message[..s.k];
    let depths = &mut depths[..s.count];
    let a = decode::decode(
        s.m,
        s.r,
        s.k,
        &points[..s.count],
        &row[..s.r * s.count],
        message,
        depths,
    );
    line_of(a, message, depths)
}

// The line of the bytes: read as a slip and decoded.
fn read_line(bytes: &[u8]) -> Text<ROOM>
    ensures { Line bytes.now result }
{
    // There is no heap, so both have the room of the longest row.
    let mut points = [0; LONGEST];
    let mut row = [0; LONGEST];
    match slip::slip_read(bytes, &mut points, &mut row) {
        Ok(s) => slip_line(s, &points, &row),
        Err(x) => line_of(Err(x), &[], &[]),
    }
}

// That line, in front of a buffer.
pub fn line(bytes: &[u8], text: &mut [u8]) -> Result<usize, Refusal>
    ensures { Lined bytes.now text.old result text.new }
{
    read_line(bytes).hand_out(text)
}
