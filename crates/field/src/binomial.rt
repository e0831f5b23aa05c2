// Binomials modulo 2, by the bits of their numbers and without a table.
ghost use Rattle.std.specs.Prelude.{◌≡◌, ◌%◌, ◌<◌};
ghost use Rattle.defs.specs.Field.{binom};
ghost use Rattle.defs.specs.Limits.{longest};
ghost use Rattle.field.specs.Binomial.{NextOdd};

// The next number n after i for which C(n, j) is odd, which means that n has every one bit of j. i has them; the carry of i + 1 clears low
// ones, and those of j are put back.
pub fn next_odd(i: usize, j: usize) -> usize
    requires { (i < longest) × (binom i j % 2 ≡ 1) }
    ensures { NextOdd i j result }
{
    (i + 1) | j
}
