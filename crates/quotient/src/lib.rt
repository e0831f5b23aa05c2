// The quotient of two polynomials, where there is an exact one: long division from the top.
#![tactic(auto)]

ghost use Rattle.std.specs.Prelude.{◌≡◌, ◌+◌, ◌-◌, ◌^◌, ◌<◌, ◌≤◌, length, get_or, MatchOption};
ghost use Rattle.defs.specs.Field.{mul};
ghost use Rattle.defs.specs.Place.{Symbols};
ghost use Rattle.defs.specs.Pair.{Zero};
ghost use Rattle.theory.specs.Vanish.{Deg};
ghost use Rattle.quotient.specs.Quotient.{Leading, Divided, Dividing, Quotient};

use defs::LONGEST;
use field::{Field, add_products};

// What is divided by: coefficients of which the highest is not zero, and the inverse of that one.
#[derive(Drop)]
struct Divisor<'a> {
    field: Field,
    q: &'a [u8],
    inverse: u8,
    ghost symbols: { Symbols field.m q.now },
    ghost some: { 0 < length q.now },
    ghost unit: { mul field.m (get_or q.now (length q.now - 1) 0) inverse ≡ 1 },
    ghost small: { inverse < 2 ^ field.m },
}

impl<'a> Divisor<'a> {
    // q as a divisor; none where all of it is zero.
    fn of(field: Field, q: &'a [u8]) -> Option<Divisor<'a>>
        requires { Symbols field.m q.now }
        ensures { MatchOption result (Zero q.now) (λ d. (d.field.m ≡ field.m) × Leading q.now d.q.now) }
    {
        let top = top_of(q)?;
        Some(Divisor {
            field,
            q: &q[..=top],
            inverse: field.inverse(q[top]),
        })
    }

    // The quotient's coefficient `at`; what it contributes is taken off rem.
    fn divide_at(&self, at: usize, rem: &mut [u8]) -> u8
        requires { Symbols self.now.field.m rem.old × (at + length self.now.q.now ≤ length rem.old) }
        ensures { Divided self.now.field.m self.now.q.now self.now.inverse at rem.old result rem.new }
    {
        let top = at + (self.q.len() - 1);
        let a = self.field.mul(rem[top], self.inverse);
        let products = self.field.product_row(a);
        add_products(&mut rem[at..at + self.q.len()], self.q, &products);
        a // the coefficient found
    }
}

// The place of the highest coefficient that is not zero.
fn top_of(q: &[u8]) -> Option<usize>
    ensures { MatchOption result (Zero q.now) (λ t. (t < length q.now) × ((get_or q.now t 0 ≡ 0 → ⊥) × Deg (t + 1) q.now)) }
{
    q.iter().rposition(|&a| a != 0)
}

// The quotient of k coefficients, from the top down.
pub fn quotient(field: Field, k: usize, q0: &[u8], q1: &[u8]) -> [u8; LONGEST]
    requires { Dividing field.m k q0.now q1.now }
    ensures { Quotient field.m k q0.now q1.now result }
{
    let mut f = [0; LONGEST];
    let Some(divisor) = Divisor::of(field, q1) else {
        return f;
    };
    let mut rem = [0; LONGEST];
    rem[..q0.len()].copy_from_slice(q0);
    for at in (0..k).rev() {
        f[at] = divisor.divide_at(at, &mut rem);
    }
    f
}
