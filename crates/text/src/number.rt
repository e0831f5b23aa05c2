// Decimal numbers read from a text, up to a highest one.
ghost use Rattle.std.specs.Prelude.{◌≡◌, true};
ghost use Rattle.defs.specs.Text.{is_digit};
ghost use Rattle.text.specs.Number.{Grown, number_in};

// The digits in front of a text: where they end, and the number that they make if it is not above the highest.
#[derive(Drop)]
pub struct Number {
    pub end: usize,
    pub value: Option<usize>,
}

// A digit more. A number above the highest is not formed, so that nothing runs over.
// The bound stands by itself, since it is what the two must-fail edits turn; checked_mul, checked_add and a filter would hide it.
fn grown(value: Option<usize>, b: u8, top: usize) -> Option<usize>
    requires { is_digit b ≡ true }
    ensures { Grown top value b result }
{
    let v = value?;
    let digit = usize::from(b - b'0');
    if top < digit || (top - digit) / 10 < v {
        return None;
    }
    Some(v * 10 + digit)
}

// The number whose digits stand in front of a text.
pub fn read_number(text: &[u8], top: usize) -> Number
    ensures { result ≡ number_in top text.now }
{
    let mut value = Some(0);
    for (end, &b) in text.iter().enumerate() {
        if !b.is_ascii_digit() {
            return Number { end, value };
        }
        value = grown(value, b, top);
    }
    Number {
        end: text.len(),
        value,
    }
}
