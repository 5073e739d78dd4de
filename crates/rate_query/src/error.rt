// What is wrong with the words of a query.
ghost use Rattle.std.specs.Prelude.{◌≡◌, Some};
ghost use Rattle.rate_query.specs.Errors.{text_of};

use std::error::Error;
use std::fmt;

#[derive(Clone, Copy, Debug, PartialEq, Eq, Hash)]
pub enum QueryError {
    BaudMissing,
    TooManyWords,
    ChipUnknown,
    BaudNotANumber,
    BaudTooLarge,
    ClockNotANumber,
    ClockTooLarge,
    ToleranceUnknown,
    ToleranceTooLarge,
}

impl QueryError {
    // What a person is told, for who has no formatter; `Display` prints it.
    pub fn text(self) -> &'static str
        ensures { result.now ≡ text_of self }
    {
        match self {
            QueryError::BaudMissing => "the baud rate is missing",
            QueryError::TooManyWords => "there are more than four words",
            QueryError::ChipUnknown => "the chip is not esp32, esp32c3 or esp32c6",
            QueryError::BaudNotANumber => "the baud rate is not a number",
            QueryError::BaudTooLarge => "the baud rate is above 4294967295",
            QueryError::ClockNotANumber => "the clock is not a number",
            QueryError::ClockTooLarge => "the clock is above 4294967295",
            QueryError::ToleranceUnknown =>
                "the tolerance is not closest, exact or a percent such as 3%",
            QueryError::ToleranceTooLarge => "the tolerance is above 255%",
        }
    }
}

impl fmt::Display for QueryError {
    ghost output = { λ mistake. Some (text_of mistake) };

    fn fmt<W: fmt::Write>(&self, f: &mut fmt::Formatter<W>) -> fmt::Result {
        f.write_str(self.text())
    }
}

impl Error for QueryError {}
