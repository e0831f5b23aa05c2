// The level of a chunk, and the chunk of a level.
ghost use Rattle.std.specs.Prelude.{◌≡◌, ◌+◌, ◌-◌, ◌/◌, ◌%◌, ◌^◌, ◌<◌, ◌≤◌, length, get_or};
ghost use Rattle.defs.specs.Limits.{deepest};
ghost use Rattle.defs.specs.Place.{tab, Symbols};
ghost use Rattle.defs.specs.Levels.{level};

use field::Field;

// Chunks of r symbols of a field, whose levels go up to one below its size to the power r, which may be 2 ^ 64.
#[derive(Clone, Copy)]
pub struct Scale {
    pub field: Field,
    pub r: usize,
    pub ghost depth: { (0 < r) × (r ≤ deepest) },
}

impl Scale {
    // The highest level.
    pub fn highest(self) -> usize
        ensures { result + 1 ≡ (2 ^ self.field.m) ^ self.r }
    {
        let q = self.field.size();
        let mut top = 0;
        for _ in 0..self.r {
            top = top * q + (q - 1);
        }
        top
    }

    // The level of a chunk: symbol after symbol, the last one with the weight 1.
    pub fn level_of(self, chunk: &[u8]) -> usize
        requires size { length chunk.now ≡ self.r }
        requires symbols { Symbols self.field.m chunk.now }
        ensures { result ≡ level (2 ^ self.field.m) self.r (λ j. get_or chunk.now j 0) }
    {
        let q = self.field.size();
        let mut v = 0;
        for &symbol in chunk {
            v = v * q + usize::from(symbol);
        }
        v
    }

    // Writes the chunk of a level: its digits to the base of the field's size, the last one first.
    pub fn put_chunk(self, v: usize, chunk: &mut [u8])
        requires { length chunk.old ≡ self.r }
        ensures { chunk.new ≡ tab (λ j. v / (2 ^ self.field.m) ^ (self.r - 1 - j) % (2 ^ self.field.m)) self.r }
    {
        let q = self.field.size();
        let mut rest = v;
        for j in (0..self.r).rev() {
            // It fits, as is proved; try_from would bring a branch that no run takes.
            chunk[j] = (rest % q) as u8;
            rest /= q;
        }
    }
}
