// How many coefficients the polynomials of a pair have.
ghost use Rattle.std.specs.Prelude.{◌≡◌, suc, ◌+◌, ◌*◌, ◌/◌, ◌<◌, ◌≤◌};
ghost use Rattle.defs.specs.Distance.{radius as radiusOf};
ghost use Rattle.defs.specs.Limits.{longest};
ghost use Rattle.solve.specs.Table.{stride};

// The coefficients of Q0 and of Q1. They are the unknowns of an equation, those of Q0 first.
#[derive(Clone, Copy)]
pub struct Sizes {
    pub s0: usize,
    pub s1: usize,
    pub ghost some: { 0 < s1 },
    pub ghost fewer: { s1 ≤ s0 },
    pub ghost fit: { s0 + s1 ≤ stride },
}

impl Sizes {
    // As many as formula 9 allows, for a row of n symbols and a message of k.
    pub fn of(n: usize, k: usize) -> Sizes
        requires message { (0 < k) × (k ≤ n) }
        requires row { n ≤ longest }
        ensures s0 { result.s0 ≡ (n + k) / 2 }
        ensures s1 { result.s1 ≡ suc (radiusOf n k) }
    {
        Sizes {
            s0: (n + k) / 2,
            s1: crate::radius(n, k) + 1,
        }
    }
}
