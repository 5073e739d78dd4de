// The settings that have calls of their own: receive threshold, receive timeout and AT command. Two lines round each call count its reads; a helper that takes the call as a closure would be no plainer.
ghost use Rattle.std.specs.Prelude.{[], ◌∷◌};
ghost use Rattle.uart_config.specs.Rows.{threshold_row, timeout_row, at_cmd_rows};
ghost use Rattle.uart_config.specs.Runs.{HasRoom, Ran};
ghost use Rattle.uart_config.specs.Tables.{Carried};
ghost use Rattle.uart_config.specs.Uarts.{ChangesRest, rest_of};

use super::fault::Fault;
use super::fifo::Fifo;
use super::step::Step;
use super::uart::Uart;
use uart_chip::at_cmd::AtCmdConfig;
use uart_chip::chip::Chip;
use uart_chip::kind::ChipKind;
use uart_chip::source::EventSource;

impl<C: Chip> Uart<C> {
    // Sets the fill of the receive FIFO for `FifoFull`.
    pub fn set_rx_fifo_full_threshold(&mut self, threshold: u16) -> Result<u32, Fault>
        ensures { ChangesRest C.EventSource (Carried C.Kind.ChipKind.PROPERTIES.has_update self.old.budget (threshold_row threshold ∷ []) 0 result) self.old self.new }
    {
        self.reads = 0;
        self.change_threshold(Fifo::Rx, threshold)?;
        Ok(self.reads)
    }

    // Sets the receive timeout, or that there is none.
    pub fn set_rx_timeout(&mut self, timeout: Option<u8>) -> Result<u32, Fault>
        ensures { ChangesRest C.EventSource (Carried C.Kind.ChipKind.PROPERTIES.has_update self.old.budget (timeout_row C.Kind.ChipKind.PROPERTIES (rest_of C.EventSource self.old).fields timeout ∷ []) 0 result) self.old self.new }
    {
        self.reads = 0;
        self.change_rx_timeout(timeout)?;
        Ok(self.reads)
    }

    // What makes an AT command, and an update.
    fn change_at_cmd(&mut self, config: AtCmdConfig) -> Result<(), Fault>
        requires { HasRoom (at_cmd_rows C.Kind.ChipKind.PROPERTIES config) self.old }
        ensures { Ran C.EventSource C.Kind.ChipKind.PROPERTIES (at_cmd_rows C.Kind.ChipKind.PROPERTIES config) self.old result self.new }
    {
        self.chip.write_at_cmd(config);
        self.update(Step::AtCmd)
    }

    // Sets what makes an AT command.
    pub fn set_at_cmd(&mut self, config: AtCmdConfig) -> Result<u32, Fault>
        ensures { ChangesRest C.EventSource (Carried C.Kind.ChipKind.PROPERTIES.has_update self.old.budget (at_cmd_rows C.Kind.ChipKind.PROPERTIES config) 0 result) self.old self.new }
    {
        self.reads = 0;
        self.change_at_cmd(config)?;
        Ok(self.reads)
    }
}
