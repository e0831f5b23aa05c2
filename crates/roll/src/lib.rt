// A roll, slips one behind another: its first slip, and what stands behind it.
#![tactic(auto)]

ghost use Rattle.std.specs.Prelude.{◌≡◌, length};
ghost use Rattle.defs.specs.Refusal.{answer};
ghost use Rattle.defs.specs.Roll.{roll_verdict, first_part, rest_part};

use defs::Refusal;

// Where the first slip of a roll ends, which is at 0 in an empty roll; or why it has none, by the checks of header and size.
fn first_end(roll: &[u8]) -> Result<usize, Refusal>
    ensures { result ≡ answer (roll_verdict roll.now) (length (first_part roll.now)) }
{
    if roll.is_empty() {
        return Ok(0);
    }
    slip::first_size(roll)
}

// The size of a roll's first part, which is empty for an empty roll and on a refusal. A size and no Option, since that is what it promises.
pub fn first_size(roll: &[u8]) -> usize
    ensures { result ≡ length (first_part roll.now) }
{
    first_end(roll).unwrap_or(0)
}

// Whether a roll begins with a slip. Done with 0, also for an empty roll.
pub fn roll_answer(roll: &[u8]) -> Result<usize, Refusal>
    ensures { result ≡ answer (roll_verdict roll.now) 0 }
{
    // No `?`, so that the refusal that is handed up can be read.
    if let Err(x) = first_end(roll) {
        return Err(x);
    }
    Ok(0)
}

// The first slip of a roll. Empty for an empty roll and on a refusal.
pub fn roll_first(roll: &[u8]) -> &[u8]
    ensures { result.now ≡ first_part roll.now }
{
    &roll[..first_size(roll)]
}

// What stands behind the first slip of a roll. On a refusal the whole roll.
pub fn roll_rest(roll: &[u8]) -> &[u8]
    ensures { result.now ≡ rest_part roll.now }
{
    &roll[first_size(roll)..]
}
