// Step 5 of a configuration: the transmit threshold, and the transmit FIFO's reset.
ghost use Rattle.uart_config.specs.Rows.{transmit_rows};
ghost use Rattle.uart_config.specs.Runs.{HasRoom, Ran};

use super::fault::Fault;
use super::fifo::Fifo;
use super::step::Step;
use super::uart::Uart;
use uart_chip::chip::Chip;
use uart_chip::kind::ChipKind;
use uart_chip::source::EventSource;
use uart_rate::config::TxConfig;

impl<C: Chip> Uart<C> {
    // The transmitter's settings, and a reset of its FIFO.
    pub(crate) fn configure_tx(&mut self, config: &TxConfig) -> Result<(), Fault>
        requires { HasRoom (transmit_rows config.now) self.old }
        ensures { Ran C.EventSource C.Kind.ChipKind.PROPERTIES (transmit_rows config.now) self.old result self.new }
    {
        self.change_threshold(Fifo::Tx, config.fifo_empty_threshold)?;
        self.reset(Fifo::Tx, Step::Transmit)
    }
}
