// The error check, and what follows a line error.
ghost use Rattle.std.specs.Prelude.{◌≡◌};
ghost use Rattle.uart_chip.specs.Meanings.{meaning};
ghost use Rattle.uart_config.specs.Errors.{error_events, Recovers, Checks};
ghost use Rattle.uart_config.specs.Uarts.{ChangesRest};

use super::fault::Fault;
use super::fifo::Fifo;
use super::rx_error::{RxError, rx_event_check_for_error};
use super::step::Step;
use super::uart::Uart;
use uart_chip::chip::Chip;
use uart_chip::events::Events;
use uart_chip::kind::ChipKind;
use uart_chip::source::EventSource;

// The events that are cleared after a line error: `FifoTout` and the four errors.
fn error_events() -> Events
    ensures { result ≡ error_events }
{
    Events {
        fifo_ovf: true,
        fifo_tout: true,
        glitch_detected: true,
        frame_error: true,
        parity_error: true,
        ..Events::none()
    }
}

impl<C: Chip> Uart<C> {
    // What follows a line error, and the fault to answer: after an overflow the receive FIFO is reset.
    pub fn recover(&mut self, error: RxError) -> Fault
        ensures { ChangesRest C.EventSource (Recovers C.Kind.ChipKind.PROPERTIES.has_update self.old.budget error result) self.old self.new }
    {
        if error != RxError::FifoOverflowed {
            return Fault::refused(error.into(), 0);
        }
        self.reads = 0;
        match self.reset(Fifo::Rx, Step::ErrorReset) {
            Ok(()) => Fault::refused(error.into(), self.reads),
            Err(fault) => fault,
        }
    }

    // The error check.
    pub fn check_for_errors(&mut self) -> Result<u32, Fault>
        ensures checks { Checks C.Kind.ChipKind.PROPERTIES.has_update self.old.budget result (meaning C.EventSource self.old.chip) (meaning C.EventSource self.new.chip) }
        ensures budget { self.new.budget ≡ self.old.budget }
    {
        let look = self.chip.look();
        let Err(error) = rx_event_check_for_error(look.raw) else {
            return Ok(0);
        };
        self.chip.clear(error_events());
        Err(self.recover(error))
    }
}
