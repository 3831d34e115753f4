// Numbers in decimal.
ghost use Rattle.std.specs.Prelude.{◌≡◌, ◌<◌, length};
ghost use Rattle.lines.specs.Numbers.{digits_from, number_at, number_if, numbers_at};

use crate::digits::{decimal_at, spaced};

// A number, and where it ends.
#[derive(Drop)]
pub struct Number {
    pub value: u32,
    pub end: usize,
}

// Up to three numbers, and where they end; 0 stands for those that were not asked for.
#[derive(Drop)]
pub struct Numbers {
    pub first: u32,
    pub second: u32,
    pub third: u32,
    pub end: usize,
}

// The number that the digits from a place on write, at most 9 of them.
fn digits_from(text: &[u8], at: usize) -> Number
    requires { at < length text.now }
    ensures { result ≡ digits_from text.now 9 at 0 }
{
    let mut value: u32 = 0;
    for end in at..at + 9 {
        let Some(digit) = decimal_at(text, end) else {
            return Number { value, end };
        };
        value = 10 * value + u32::from(digit);
    }
    Number { value, end: at + 9 }
}

// A space and a number after it.
fn number_at(text: &[u8], at: usize) -> Option<Number>
    ensures { result ≡ number_at text.now at }
{
    if spaced(text, at) && decimal_at(text, at + 1).is_some() {
        Some(digits_from(text, at + 1))
    } else {
        None
    }
}

// The same where it is asked for; else 0, which takes no place.
fn number_if(text: &[u8], at: usize, asked: bool) -> Option<Number>
    ensures { result ≡ number_if asked text.now at }
{
    if asked {
        number_at(text, at)
    } else {
        Some(Number { value: 0, end: at })
    }
}

// `count` numbers, up to three, each after one space.
pub fn numbers_at(text: &[u8], at: usize, count: u32) -> Option<Numbers>
    ensures { result ≡ numbers_at text.now at count }
{
    let first = number_if(text, at, 0 < count)?;
    let second = number_if(text, first.end, 1 < count)?;
    let third = number_if(text, second.end, 2 < count)?;
    Some(Numbers {
        first: first.value,
        second: second.value,
        third: third.value,
        end: third.end,
    })
}
