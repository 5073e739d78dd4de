// The two FIFOs of a UART, what differs between them, and the mark of one that is held in reset.
ghost use Rattle.std.specs.Prelude.{◌≡◌};
ghost use Rattle.uart_config.specs.Rows.{reset_field, threshold_field, threshold_refusal};

use super::step::Step;
use uart_chip::field::Field;
use uart_rate::refusal::Refusal;

#[derive(Clone, Copy, PartialEq, Eq, Debug, Hash)]
pub enum Fifo {
    Rx,
    Tx,
}

impl Fifo {
    // The field that holds the FIFO in reset.
    pub(crate) fn reset_field(self) -> Field
        ensures { result ≡ reset_field self }
    {
        match self {
            Fifo::Rx => Field::RxfifoRst,
            Fifo::Tx => Field::TxfifoRst,
        }
    }

    // The field with the fill at which the FIFO's event comes.
    pub(crate) fn threshold_field(self) -> Field
        ensures { result ≡ threshold_field self }
    {
        match self {
            Fifo::Rx => Field::RxfifoFullThrhd,
            Fifo::Tx => Field::TxfifoEmptyThrhd,
        }
    }

    // The refusal of a fill that the FIFO cannot have.
    pub(crate) fn threshold_refusal(self) -> Refusal
        ensures { result ≡ threshold_refusal self }
    {
        match self {
            Fifo::Rx => Refusal::RxFifoThresholdNotSupported,
            Fifo::Tx => Refusal::TxFifoThresholdNotSupported,
        }
    }
}

// A FIFO is held in reset: its reset field was read as 1. Who has this value has to let the FIFO go.
pub(crate) struct HeldReset {
    pub(crate) fifo: Fifo,
    // the step that the reset belongs to
    pub(crate) step: Step,
    // what the reset field was read as
    pub(crate) on: u32,
    ghost held: { on ≡ 1 },
}
