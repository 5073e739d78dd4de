// Why a call is refused. Every layer shares this one list; `docs/REFUSALS.md` tells when each is given.
ghost use Rattle.std.specs.Prelude.{◌≡◌, Some};
ghost use Rattle.uart_rate.specs.Refusals.{number_of, name_of_refusal};

use std::error::Error;
use std::fmt;

#[derive(Clone, Copy, Debug, PartialEq, Eq, Hash)]
pub enum Refusal {
    PercentOutOfRange = 1,
    BaudrateNotSupported = 2,
    ClockNotUsable = 3,
    DividerOutOfRange = 4,
    UpdateTimedOut = 5,
    BaudrateNotAchievable = 6,
    RxFifoThresholdNotSupported = 7,
    TimeoutTooLong = 8,
    TxFifoThresholdNotSupported = 9,
    WaitOpen = 10,
    NoSuchWait = 11,
    FifoOverflowed = 21,
    GlitchOccurred = 22,
    FrameFormatViolated = 23,
    ParityMismatch = 24,
}

impl Refusal {
    // The number that stands for the refusal in a reply.
    pub fn number(self) -> u8
        ensures { result ≡ number_of self }
    {
        self as u8
    }

    // The name that is printed behind the number, for who has no formatter; `Display` prints it.
    pub fn name(self) -> &'static str
        ensures { result.now ≡ name_of_refusal self }
    {
        match self {
            Refusal::PercentOutOfRange => "PercentOutOfRange",
            Refusal::BaudrateNotSupported => "BaudrateNotSupported",
            Refusal::ClockNotUsable => "ClockNotUsable",
            Refusal::DividerOutOfRange => "DividerOutOfRange",
            Refusal::UpdateTimedOut => "UpdateTimedOut",
            Refusal::BaudrateNotAchievable => "BaudrateNotAchievable",
            Refusal::RxFifoThresholdNotSupported => "RxFifoThresholdNotSupported",
            Refusal::TimeoutTooLong => "TimeoutTooLong",
            Refusal::TxFifoThresholdNotSupported => "TxFifoThresholdNotSupported",
            Refusal::WaitOpen => "WaitOpen",
            Refusal::NoSuchWait => "NoSuchWait",
            Refusal::FifoOverflowed => "FifoOverflowed",
            Refusal::GlitchOccurred => "GlitchOccurred",
            Refusal::FrameFormatViolated => "FrameFormatViolated",
            Refusal::ParityMismatch => "ParityMismatch",
        }
    }
}

impl fmt::Display for Refusal {
    ghost output = { λ r. Some (name_of_refusal r) };

    fn fmt<W: fmt::Write>(&self, f: &mut fmt::Formatter<W>) -> fmt::Result {
        f.write_str(self.name())
    }
}

impl Error for Refusal {}
