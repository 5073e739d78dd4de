// The fill at which a FIFO's event comes.
ghost use Rattle.std.specs.Prelude.{[], ◌∷◌};
ghost use Rattle.uart_config.specs.Rows.{fifo_threshold_row};
ghost use Rattle.uart_config.specs.Runs.{Ran};

use super::fault::Fault;
use super::fifo::Fifo;
use super::uart::Uart;
use uart_chip::chip::Chip;
use uart_chip::kind::ChipKind;
use uart_chip::source::EventSource;

impl<C: Chip> Uart<C> {
    // The fill for `FifoFull`, or for `FiFoEmpty`: 127 at the most.
    pub(crate) fn change_threshold(&mut self, fifo: Fifo, threshold: u16) -> Result<(), Fault>
        ensures { Ran C.EventSource C.Kind.ChipKind.PROPERTIES (fifo_threshold_row fifo threshold ∷ []) self.old result self.new }
    {
        if threshold > 127 {
            return Err(Fault::refused(fifo.threshold_refusal(), self.reads));
        }
        self.chip
            .write(fifo.threshold_field(), u32::from(threshold));
        Ok(())
    }
}
