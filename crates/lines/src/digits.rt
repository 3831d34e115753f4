// Digits and spaces.
ghost use Rattle.std.specs.Prelude.{◌≡◌};
ghost use Rattle.lines.specs.Digits.{digit_of, digit_at, decimal_at, space_at};

// The value of a hexadecimal digit, in lower case; none for any other byte.
fn digit(byte: u8) -> Option<u8>
    ensures { result ≡ digit_of byte }
{
    match byte {
        b'0'..=b'9' => Some(byte - b'0'),
        b'a'..=b'f' => Some(byte - b'a' + 10),
        _ => None,
    }
}

// The digit at a place of a text; none stands past its end.
pub fn digit_at(text: &[u8], at: usize) -> Option<u8>
    ensures { result ≡ digit_at text.now at }
{
    digit(*text.get(at)?)
}

// The decimal digit at a place of a text.
pub(crate) fn decimal_at(text: &[u8], at: usize) -> Option<u8>
    ensures { result ≡ decimal_at text.now at }
{
    digit_at(text, at).filter(|digit| *digit < 10)
}

// A space stands at a place of a text.
pub fn spaced(text: &[u8], at: usize) -> bool
    ensures { result ≡ space_at text.now at }
{
    text.get(at) == Some(&b' ')
}
