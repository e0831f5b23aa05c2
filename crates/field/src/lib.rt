// Arithmetic of the fields with 4, 16 and 256 elements.
#![tactic(auto)]

mod binomial;
mod tables;

ghost use Rattle.std.specs.Prelude.{◌≡◌, ◌+◌, ◌*◌, ◌-◌, ◌^◌, ◌<◌, ◌≤◌, length, get_or, IfSome, is_some};
ghost use Rattle.defs.specs.Field.{Width, add, times2, mul, pow};
ghost use Rattle.defs.specs.Limits.{is_width};
ghost use Rattle.defs.specs.Place.{tab};
ghost use Rattle.field.specs.Arithmetic.{Element, Inverse, Logarithm, Powers, Logarithms};
ghost use Rattle.field.specs.Arithmetic.{Products, Doubled};
ghost use Rattle.field.specs.Width.{width-prop};

pub use binomial::next_odd;
pub use tables::POWERS;
use tables::{EXP, EXP4, EXP16, LOG, LOG4, LOG16};

// Which field: its symbols have m bits.
#[derive(Clone, Copy, Debug, PartialEq, Eq)]
pub struct Field {
    pub m: usize,
    pub ghost known: { Width m } by { width-prop m },
}

impl Field {
    // The field whose symbols have m bits, where there is one.
    pub fn of_width(m: usize) -> Option<Field>
        ensures width { IfSome result (λ f. f.m ≡ m) }
        ensures exactly { is_some result ≡ is_width m }
    {
        if matches!(m, 2 | 4 | 8) {
            Some(Field { m })
        } else {
            None
        }
    }

    // The number of elements.
    pub fn size(self) -> usize
        ensures { result ≡ 2 ^ self.m }
    {
        1 << self.m
    }

    // The powers of 2, twice round, as a table.
    fn powers(self) -> &'static [u8]
        ensures { Powers self.m result.now }
    {
        match self.m {
            2 => &EXP4,
            4 => &EXP16,
            _ => &EXP,
        }
    }

    // The logarithms, as a table.
    fn logarithms(self) -> &'static [u8]
        ensures { Logarithms self.m result.now }
    {
        match self.m {
            2 => &LOG4,
            4 => &LOG16,
            _ => &LOG,
        }
    }

    // The power i of 2.
    fn exp(self, i: usize) -> u8
        requires { i < 2 * (2 ^ self.m - 1) }
        ensures { Element self.m (pow self.m 2 i) result }
    {
        self.powers()[i]
    }

    // The power of 2 that a is; 0 is none.
    fn log(self, a: u8) -> u8
        requires { (a < 2 ^ self.m) × (a ≡ 0 → ⊥) }
        ensures { Logarithm self.m a result }
    {
        self.logarithms()[usize::from(a)]
    }

    // a b, by the sum of their logarithms; 0 has none.
    pub fn mul(self, a: u8, b: u8) -> u8
        requires { (a < 2 ^ self.m) × (b < 2 ^ self.m) }
        ensures { Element self.m (mul self.m a b) result }
    {
        if a == 0 || b == 0 {
            return 0;
        }
        self.exp(usize::from(self.log(a)) + usize::from(self.log(b)))
    }

    // 1 / a: its logarithm and that of a add up to 2^m - 1.
    pub fn inverse(self, a: u8) -> u8
        requires { (a < 2 ^ self.m) × (a ≡ 0 → ⊥) }
        ensures { Inverse self.m a result }
    {
        self.exp(self.size() - 1 - usize::from(self.log(a)))
    }

    // The least element whose double is reduced. By a shift, a loop that doubles a row would take 1.4 times as long.
    fn half(self) -> u8
        ensures { result * 2 ≡ 2 ^ self.m }
    {
        match self.m {
            2 => 2,
            4 => 8,
            _ => 128,
        }
    }

    // 2 a, by operations on bytes alone, so that a loop over a row doubles many entries at a time. 29 and 3 are the moduli without bit m.
    // With the modulus in a variable, that loop would take 1.4 times as long.
    pub fn times2(self, a: u8) -> u8
        requires { a < 2 ^ self.m }
        ensures { Element self.m (times2 self.m a) result }
    {
        let half = self.half();
        if a < half {
            return a + a;
        }
        let rest = a - half;
        if self.m == 8 {
            return (rest + rest) ^ 29;
        }
        (rest + rest) ^ 3
    }

    // The multiples of c: c x at x, for inner loops that multiply by c again and again.
    pub fn product_row(self, c: u8) -> [u8; 256]
        requires { c < 2 ^ self.m }
        ensures { Products self.m c result }
    {
        let mut row = [0; 256];
        let mut step = c;
        for i in 0..self.m {
            double(&mut row, 1 << i, step);
            step = self.times2(step);
        }
        row
    }
}

// Adds the multiples of some entries to as many others.
pub fn add_products(to: &mut [u8], from: &[u8], products: &[u8; 256])
    requires { length from.now ≡ length to.old }
    ensures { to.new ≡ tab (λ a. add (get_or to.old a 0) (get_or products.now (get_or from.now a 0) 0)) (length to.old) }
{
    for (a, entry) in to.iter_mut().enumerate() {
        *entry ^= products[usize::from(from[a])];
    }
}

// The first size entries once more behind them, each with step added.
fn double(row: &mut [u8; 256], size: usize, step: u8)
    requires { (length row.old ≡ 256) × (size + size ≤ 256) }
    ensures { Doubled size step size row.old row.new }
{
    for j in 0..size {
        row[size + j] = row[j] ^ step;
    }
}
