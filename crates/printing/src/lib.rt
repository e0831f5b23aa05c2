// What the programs share: bytes read into a buffer, and the line of a slip printed.
#![tactic(auto)]

ghost use Rattle.std.specs.Prelude.{◌≡◌, ℕ, ◌<◌, ◌≤◌, length, take, IfOk, OnErr};
ghost use Rattle.std.specs.Io.{ReadsAtMost};
ghost use Rattle.std.specs.Io.KnownBytes.{Consumes, IsAtEnd};

use line::ROOM;
use std::io;
use std::io::Read;

// Reads until the buffer is full or the input ends, and answers how many bytes it put at the front. The one error is the input's own; the buffer
// may then be written in part.
pub fn read_full<R: Read>(input: &mut R, buf: &mut [u8]) -> io::Result<usize>
    ensures front { ReadsAtMost result buf.new }
    ensures size { length buf.new ≡ length buf.old }
    ensures bytes { IfOk result (λ n. Consumes (R.remaining input.old) (R.remaining input.new) (take n buf.new)) }
    ensures end { IfOk result (λ n. n < length buf.new → IsAtEnd (R.remaining input.new)) }
    ensures err { OnErr result ((n : ℕ) × (n ≤ length buf.new) × Consumes (R.remaining input.old) (R.remaining input.new) (take n buf.new)) }
{
    let mut done = 0;
    // A while, since the input says how far a turn goes: a range would count turns, which say nothing.
    while done < buf.len() {
        let n = input.read(&mut buf[done..])?;
        if n == 0 {
            break;
        }
        done += n;
    }
    Ok(done)
}

// No contract can say what is written: the line is proved in `line`, and the programs are run.
pub fn print_line(rt: &impl Print, bytes: &[u8]) -> io::Result<()> {
    let mut text = [0u8; ROOM];
    if let Ok(size) = line::line(bytes, &mut text) {
        rt.write_all(&text[..size])?;
    }
    Ok(())
}
