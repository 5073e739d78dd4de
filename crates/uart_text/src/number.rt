// Decimal numbers as people write them: digits, `_` between two digits, and `,` before groups of three.
ghost use Rattle.std.specs.Prelude.{◌≡◌, ℕ, ◌+◌, ◌*◌, ◌^◌, ◌<◌, ◌↔◌, Some, IsTrue};
ghost use Rattle.std.specs.Option.{SomeIff};
ghost use Rattle.uart_text.specs.Number.{Numeral, Form, value, NumberRead, text_of};
ghost use Rattle.uart_text.specs.Scan.{stepped, digits};

use std::error::Error;
use std::fmt;

// Why a text was not read as a number.
#[derive(Clone, Copy, Debug, PartialEq, Eq, Hash)]
pub enum NumberError {
    NotANumber,
    TooLarge,
}

impl fmt::Display for NumberError {
    ghost output = { λ error. Some (text_of error) };

    fn fmt<W: fmt::Write>(&self, f: &mut fmt::Formatter<W>) -> fmt::Result {
        f.write_str(match self {
            NumberError::NotANumber => "not a number",
            NumberError::TooLarge => "too large a number",
        })
    }
}

impl Error for NumberError {}

// What a text is so far, as it is read from its right end.
#[derive(Clone, Copy, Debug, PartialEq, Eq)]
enum Scan {
    // Nothing was read.
    Start,
    // A numeral of so many digits.
    Digits(usize),
    // A separator, and then a numeral of so many digits.
    Gap(usize),
    // The end of no numeral. A state like the others: whatever comes before it leaves it so, and no `None` need end the scan early.
    Bad,
}

impl Scan {
    // What the text is with `byte` in front of it.
    fn step(self, grouped: bool, byte: u8) -> Scan
        requires { digits self + 1 < 2 ^ 64 }
        ensures { result ≡ stepped grouped self byte }
    {
        let digit = byte.is_ascii_digit();
        match self {
            Scan::Start if digit => Scan::Digits(1),
            Scan::Gap(count) if digit => Scan::Digits(count + 1),
            Scan::Digits(count) if grouped && count % 3 == 0 => {
                if byte == b',' {
                    Scan::Gap(count)
                } else {
                    Scan::Bad
                }
            }
            Scan::Digits(count) if digit => Scan::Digits(count + 1),
            Scan::Digits(count) if byte == b'_' => Scan::Gap(count),
            _ => Scan::Bad,
        }
    }
}

// Whether `text` is a numeral: with commas between its groups of three, or, where `grouped` is false, with none.
fn is_numeral(text: &[u8], grouped: bool) -> bool
    ensures { IsTrue result ↔ ((n : ℕ) × Numeral grouped text.now n) }
{
    let mut state = Scan::Start;
    for byte in text.iter().rev() {
        state = state.step(grouped, *byte);
    }
    matches!(state, Scan::Digits(_))
}

// Whether `text` is a numeral, with commas or with none.
fn is_number(text: &[u8]) -> bool
    ensures { IsTrue result ↔ Form text.now }
{
    is_numeral(text, false) || is_numeral(text, true)
}

// `digit` written behind the digits of `total`, unless that passes 64 bits.
fn append_digit(total: u64, digit: u64) -> Option<u64>
    ensures { SomeIff result (10 * total + digit < 2 ^ 64) (10 * total + digit) }
{
    total.checked_mul(10)?.checked_add(digit)
}

// The value of the digits of `text`, unless it passes 64 bits.
fn digits_value(text: &[u8]) -> Option<u64>
    ensures { SomeIff result (value text.now < 2 ^ 64) (value text.now) }
{
    let mut total = 0u64;
    for byte in text {
        if byte.is_ascii_digit() {
            total = append_digit(total, u64::from(*byte - b'0'))?;
        }
    }
    Some(total)
}

// The decimal number that `text` is, if it is at most `largest`.
pub fn read_number(text: &[u8], largest: u64) -> Result<u64, NumberError>
    ensures { NumberRead text.now largest result }
{
    if !is_number(text) {
        return Err(NumberError::NotANumber);
    }
    match digits_value(text) {
        Some(number) if number <= largest => Ok(number),
        _ => Err(NumberError::TooLarge),
    }
}
