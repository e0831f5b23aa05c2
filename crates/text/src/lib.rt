// Text and decimal numbers written piece behind piece, into a buffer or a text of its own, and handed out to a caller.
#![tactic(auto)]

mod number;

ghost use Rattle.std.specs.Prelude.{◌≡◌, [], ◌∷◌, ◌++◌, ◌+◌, ◌<◌, ◌≤◌, length};
ghost use Rattle.defs.specs.Text.{decimal};
ghost use Rattle.defs.specs.Write.{front};
ghost use Rattle.text.specs.Handed.{Handed};
ghost use Rattle.text.specs.Piece.{Wrote};

use defs::Refusal;
pub use number::{Number, read_number};
use std::marker::Model;

// Writes a number to the front of some bytes, and answers how many digits it has.
// By hand, since std's formatting promises no digits and brings more code than the archive has room for.
fn write_digits(x: usize, bytes: &mut [u8]) -> usize
    requires { length (decimal x) ≤ length bytes.old }
    ensures count { result ≡ length (decimal x) }
    ensures digits { bytes.new ≡ front (decimal x) bytes.old }
{
    // It fits, as is proved; try_from would bring a branch that no run takes.
    if x < 10 {
        bytes[0] = b'0' + x as u8;
        return 1;
    }
    let count = write_digits(x / 10, bytes);
    bytes[count] = b'0' + (x % 10) as u8;
    count + 1
}

// One byte at a place of a text. Answers where the next one goes, as the two below do.
pub fn put(text: &mut [u8], at: usize, byte: u8) -> usize
    requires { at < length text.old }
    ensures { Wrote text.old at (byte ∷ []) text.new result }
{
    text[at] = byte;
    at + 1
}

// A number, without leading zeros.
pub fn put_number(text: &mut [u8], at: usize, x: usize) -> usize
    requires { at + length (decimal x) ≤ length text.old }
    ensures { Wrote text.old at (decimal x) text.new result }
{
    at + write_digits(x, &mut text[at..])
}

// A number behind a space.
pub fn put_spaced(text: &mut [u8], at: usize, x: usize) -> usize
    requires { at + length (32 ∷ decimal x) ≤ length text.old }
    ensures { Wrote text.old at (32 ∷ decimal x) text.new result }
{
    let next = put(text, at, b' ');
    put_number(text, next, x)
}

// Hands out a text, or refuses a buffer that is too short for it.
pub fn hand_out(words: &[u8], text: &mut [u8]) -> Result<usize, Refusal>
    ensures { Handed words.now text.old result text.new }
{
    if text.len() < words.len() {
        return Err(Refusal::Length);
    }
    code::copy(words, text);
    Ok(words.len())
}

// A text of at most N bytes, as far as it is written.
#[derive(Drop)]
pub struct Text<const N: usize> {
    bytes: [u8; N],
    len: usize,
}

impl<const N: usize> Model for Text<N> {
    ghost use Rattle.std.specs.Prelude.{ℕ, List, ◌≤◌, take};

    ghost Value = { List ℕ };

    ghost view = { λ t. take t.len t.bytes };

    ghost invariant = { λ t. t.len ≤ N };
}

impl<const N: usize> Text<N> {
    pub fn new() -> Self
        ensures { result ≡ [] }
    {
        Text {
            bytes: [0; N],
            len: 0,
        }
    }

    // One byte.
    pub fn put(&mut self, byte: u8)
        requires { length self.old < N }
        ensures { self.new ≡ self.old ++ byte ∷ [] }
    {
        self.len = put(&mut self.bytes, self.len, byte);
    }

    // A number, without leading zeros.
    pub fn put_number(&mut self, x: usize)
        requires { length self.old + length (decimal x) ≤ N }
        ensures { self.new ≡ self.old ++ decimal x }
    {
        let bytes = &mut self.bytes[..];
        self.len += write_digits(x, &mut bytes[self.len..]);
    }

    // A number behind a space.
    pub fn put_spaced(&mut self, x: usize)
        requires { length self.old + length (32 ∷ decimal x) ≤ N }
        ensures { self.new ≡ self.old ++ (32 ∷ decimal x) }
    {
        self.put(b' ');
        self.put_number(x);
    }

    // Hands out the text, or refuses a buffer that is too short for it.
    pub fn hand_out(&self, text: &mut [u8]) -> Result<usize, Refusal>
        ensures { Handed self.now text.old result text.new }
    {
        hand_out(&self.bytes[..self.len], text)
    }
}
