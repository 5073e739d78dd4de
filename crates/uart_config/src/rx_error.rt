// The four errors of a receiving line.
ghost use Rattle.std.specs.Prelude.{◌≡◌, Some};
ghost use Rattle.uart_config.specs.Errors.{FirstError, refusal_of, text_of};

use std::error::Error;
use std::fmt;
use uart_chip::events::Events;
use uart_rate::refusal::Refusal;

#[derive(Clone, Copy, PartialEq, Eq, Debug, Hash)]
pub enum RxError {
    FifoOverflowed,
    GlitchOccurred,
    FrameFormatViolated,
    ParityMismatch,
}

// What a person is told.
impl fmt::Display for RxError {
    ghost output = { λ error. Some (text_of error) };

    fn fmt<W: fmt::Write>(&self, f: &mut fmt::Formatter<W>) -> fmt::Result {
        f.write_str(match self {
            RxError::FifoOverflowed => "the receive FIFO overflowed",
            RxError::GlitchOccurred => "there was a glitch on the line",
            RxError::FrameFormatViolated => "a frame was not in its format",
            RxError::ParityMismatch => "a parity bit was wrong",
        })
    }
}

impl Error for RxError {}

// The refusal that tells of the error.
impl From<RxError> for Refusal {
    ghost from_gives = { λ error refusal. refusal ≡ refusal_of error };

    fn from(error: RxError) -> Refusal {
        match error {
            RxError::FifoOverflowed => Refusal::FifoOverflowed,
            RxError::GlitchOccurred => Refusal::GlitchOccurred,
            RxError::FrameFormatViolated => Refusal::FrameFormatViolated,
            RxError::ParityMismatch => Refusal::ParityMismatch,
        }
    }
}

// The first line error among events: overflow, glitch, framing, parity.
pub fn rx_event_check_for_error(events: Events) -> Result<(), RxError>
    ensures { FirstError events result }
{
    // Each test stands beside its error, in their order; a list of pairs with a search is no plainer.
    if events.fifo_ovf {
        return Err(RxError::FifoOverflowed);
    }
    if events.glitch_detected {
        return Err(RxError::GlitchOccurred);
    }
    if events.frame_error {
        return Err(RxError::FrameFormatViolated);
    }
    if events.parity_error {
        return Err(RxError::ParityMismatch);
    }
    Ok(())
}
