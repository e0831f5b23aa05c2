// A chunk taken out of a row, as eight symbols by value.
ghost use Rattle.std.specs.Prelude.{◌≡◌, ◌+◌, ◌≤◌, length, get_or};
ghost use Rattle.defs.specs.Limits.{deepest};
ghost use Rattle.code.specs.Chunk.{chunk_of};

use defs::DEEPEST;

// The chunk that stands in a row from an index on.
pub fn chunk_of(s: &[u8], at: usize, r: usize) -> [u8; DEEPEST]
    requires { (r ≤ deepest) × (at + r ≤ length s.now) }
    ensures { result ≡ chunk_of r (λ j. get_or s.now (at + j) 0) }
{
    let mut chunk = [0; DEEPEST];
    chunk[..r].copy_from_slice(&s[at..at + r]);
    chunk
}
