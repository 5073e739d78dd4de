// Reads a query from its words.
ghost use Rattle.std.specs.Prelude.{◌≤◌, MatchResult, ◌≢◌, codes};
ghost use Rattle.std.specs.Option.{option_map};
ghost use Rattle.uart_text.specs.Left.{texts};
ghost use Rattle.uart_text.specs.Number.{Number};
ghost use Rattle.rate_query.specs.Reading.{NumberWord, ToleranceWord, NumberMistake, ToleranceMistake, WordsRead, QueryRead};

use super::chip::ChipName;
use super::error::QueryError;
use super::query::Query;
use uart_rate::config::BaudrateTolerance;
use uart_text::number::{NumberError, read_number};

// The number that a word is, if it is at most `largest`; the mistake is `none` where it is no number, and `above` where it is too large.
fn number_or(
    word: &[u8],
    largest: u64,
    none: QueryError,
    above: QueryError,
) -> Result<u64, QueryError>
    ensures { MatchResult result (λ n. Number word.now n × (n ≤ largest)) (NumberMistake word.now largest none above) }
{
    read_number(word, largest).map_err(|mistake| match mistake {
        NumberError::NotANumber => none,
        NumberError::TooLarge => above,
    })
}

// The number of 32 bits that a word is.
fn read_u32(word: &[u8], none: QueryError, above: QueryError) -> Result<u32, QueryError>
    ensures { MatchResult result (NumberWord word.now) (NumberMistake word.now 4294967295 none above) }
{
    let number = number_or(word, 4_294_967_295, none, above)?;
    Ok(number as u32)
}

// The percent that a word is.
fn read_percent(word: &[u8]) -> Result<BaudrateTolerance, QueryError>
    requires closest { word.now ≢ codes "closest" }
    requires exact { word.now ≢ codes "exact" }
    ensures { MatchResult result (ToleranceWord word.now) (ToleranceMistake word.now) }
{
    let number = word.strip_suffix(b"%").ok_or(QueryError::ToleranceUnknown)?;
    let percent = number_or(
        number,
        255,
        QueryError::ToleranceUnknown,
        QueryError::ToleranceTooLarge,
    )?;
    Ok(BaudrateTolerance::ErrorPercent(percent as u8))
}

// The tolerance that a word is.
fn read_tolerance(word: &[u8]) -> Result<BaudrateTolerance, QueryError>
    ensures { MatchResult result (ToleranceWord word.now) (ToleranceMistake word.now) }
{
    match word {
        b"closest" => Ok(BaudrateTolerance::Closest),
        b"exact" => Ok(BaudrateTolerance::Exact),
        _ => read_percent(word),
    }
}

// Reads a query from a word for the chip and one for the baud rate, and one for the clock and one for the tolerance if they stand.
fn read_words(
    chip: &[u8],
    baud: &[u8],
    clk: Option<&[u8]>,
    tolerance: Option<&[u8]>,
) -> Result<Query, QueryError>
    ensures { WordsRead chip.now baud.now (option_map (λ x. x.now) clk.entry) (option_map (λ x. x.now) tolerance.entry) result }
{
    let chip = ChipName::from_word(chip).ok_or(QueryError::ChipUnknown)?;
    let baud = read_u32(baud, QueryError::BaudNotANumber, QueryError::BaudTooLarge)?;
    let clk = match clk {
        Some(word) => read_u32(word, QueryError::ClockNotANumber, QueryError::ClockTooLarge)?,
        None => chip.default_clock(),
    };
    let tolerance = tolerance.map(read_tolerance).transpose()?;
    Ok(Query {
        chip,
        clk,
        baud,
        tolerance,
    })
}

// Reads a query from its words.
pub fn read_query(words: &[&[u8]]) -> Result<Query, QueryError>
    ensures { QueryRead (texts words.now) result }
{
    match words {
        [] | [_] => Err(QueryError::BaudMissing),
        [chip, baud] => read_words(chip, baud, None, None),
        [chip, baud, clk] => read_words(chip, baud, Some(clk), None),
        [chip, baud, clk, tolerance] => read_words(chip, baud, Some(clk), Some(tolerance)),
        _ => Err(QueryError::TooManyWords),
    }
}
