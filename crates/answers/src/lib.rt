// The number and the detail of an answer, as numbers.
#![tactic(auto)]

ghost use Rattle.std.specs.Prelude.{◌≡◌};
ghost use Rattle.defs.specs.Refusal.{number_of, place_of, number, detail};

use defs::Refusal;

// A match for the numbers, by which C knows refusals, and one for the places: five of the sixteen have one, so one match with a pair for each would be no plainer.
fn number_of(x: Refusal) -> usize
    ensures { result ≡ number_of x }
{
    match x {
        Refusal::Field => 1,
        Refusal::Depth => 2,
        Refusal::Points => 3,
        Refusal::Dimension => 4,
        Refusal::PointHigh(_) => 5,
        Refusal::PointTwice(_) => 6,
        Refusal::Length => 7,
        Refusal::SymbolHigh(_) => 8,
        Refusal::TooFar => 9,
        Refusal::SlipShort => 10,
        Refusal::Edition => 11,
        Refusal::SlipLong => 12,
        Refusal::SlipBits => 13,
        Refusal::RowLong => 15,
        Refusal::LevelLine(_) => 17,
        Refusal::LevelHigh(_) => 18,
    }
}

fn place_of(x: Refusal) -> usize
    ensures { result ≡ place_of x }
{
    match x {
        Refusal::PointHigh(i)
        | Refusal::PointTwice(i)
        | Refusal::SymbolHigh(i)
        | Refusal::LevelLine(i)
        | Refusal::LevelHigh(i) => i,
        _ => 0,
    }
}

// The number of an answer.
pub fn number_in(a: Result<usize, Refusal>) -> usize
    ensures { result ≡ number a }
{
    a.map_or_else(number_of, |_| 0)
}

// The detail of an answer.
pub fn detail_in(a: Result<usize, Refusal>) -> usize
    ensures { result ≡ detail a }
{
    a.unwrap_or_else(place_of)
}
