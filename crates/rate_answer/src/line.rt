// The line that answers a query.
ghost use Rattle.std.specs.Prelude.{◌≡◌, Some};
ghost use Rattle.rate_answer.specs.Answering.{Answers};
ghost use Rattle.rate_answer.specs.Lines.{percent_text, tolerance_text, answer_text, line_text};

use super::answer::answer;
use rate_query::query::Query;
use std::fmt;
use uart_rate::achieved::Achieved;
use uart_rate::config::BaudrateTolerance;
use uart_rate::divider::Divider;
use uart_rate::refusal::Refusal;

// Millionths, printed as percent with four decimals.
#[derive(Clone, Copy, Debug, PartialEq, Eq, Hash)]
pub struct Percent(pub u32);

impl fmt::Display for Percent {
    ghost output = { λ x. Some (percent_text x.0) };

    // Each decimal is written by itself: a writer with a buffer ends its blocks between such pieces, and where they end shows if mistakes go to the same place.
    fn fmt<W: fmt::Write>(&self, f: &mut fmt::Formatter<W>) -> fmt::Result {
        let whole = self.0 / 10_000;
        let tenths = self.0 / 1_000 % 10;
        let hundredths = self.0 / 100 % 10;
        let thousandths = self.0 / 10 % 10;
        let last = self.0 % 10;
        write!(f, "{whole}.{tenths}{hundredths}{thousandths}{last} %")
    }
}

// A tolerance as it stands in a line: with a blank before it, or nothing where none was named.
#[derive(Clone, Copy, Debug, PartialEq, Eq, Hash)]
pub struct Tolerance(pub Option<BaudrateTolerance>);

impl fmt::Display for Tolerance {
    ghost output = { λ x. Some (tolerance_text x.0) };

    fn fmt<W: fmt::Write>(&self, f: &mut fmt::Formatter<W>) -> fmt::Result {
        match self.0 {
            None => Ok(()),
            Some(BaudrateTolerance::Closest) => f.write_str(" closest"),
            Some(BaudrateTolerance::Exact) => f.write_str(" exact"),
            Some(BaudrateTolerance::ErrorPercent(n)) => write!(f, " {n}%"),
        }
    }
}

// What the head gets, or the refusal.
#[derive(Clone, Copy, Debug, PartialEq, Eq, Hash)]
pub struct Answer(pub Result<Achieved, Refusal>);

impl fmt::Display for Answer {
    ghost output = { λ x. Some (answer_text x.0) };

    fn fmt<W: fmt::Write>(&self, f: &mut fmt::Formatter<W>) -> fmt::Result {
        match self.0 {
            Ok(achieved) => {
                let Divider {
                    prescaler,
                    integer,
                    fraction,
                } = achieved.divider;
                let d = achieved.divider.sixteenths();
                let rate = achieved.rate;
                let excess = Percent(achieved.excess);
                write!(
                    f,
                    "p {prescaler} d {d} ({integer} + {fraction}/16) rate {rate} fast by {excess}"
                )
            }
            Err(refusal) => {
                let number = refusal.number();
                write!(f, "refused {number} {refusal}")
            }
        }
    }
}

// A query with its answer.
#[derive(Clone, Copy, Debug, PartialEq, Eq, Hash)]
pub struct Line {
    pub query: Query,
    pub answer: Result<Achieved, Refusal>,
}

impl Line {
    // The line that answers a query.
    pub fn new(query: Query) -> Line
        ensures query { result.query ≡ query }
        ensures answer { Answers query result.answer }
    {
        Line {
            query,
            answer: answer(&query),
        }
    }
}

impl fmt::Display for Line {
    ghost output = { λ x. Some (line_text x.query x.answer) };

    fn fmt<W: fmt::Write>(&self, f: &mut fmt::Formatter<W>) -> fmt::Result {
        let Query {
            chip,
            clk,
            baud,
            tolerance,
        } = self.query;
        let tolerance = Tolerance(tolerance);
        let answer = Answer(self.answer);
        write!(f, "{chip} {clk} {baud}{tolerance} -> {answer}")
    }
}
