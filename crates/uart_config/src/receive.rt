// Step 3 of a configuration: the receive threshold, then the receive timeout.
ghost use Rattle.std.specs.Prelude.{◌≡◌, [], ◌∷◌};
ghost use Rattle.uart_config.specs.Rows.{too_long, timeout_row, receive_rows};
ghost use Rattle.uart_config.specs.Runs.{HasRoom, Ran};
ghost use Rattle.uart_config.specs.Uarts.{rest_of};

use super::fault::Fault;
use super::fifo::Fifo;
use super::step::Step;
use super::uart::Uart;
use uart_chip::chip::Chip;
use uart_chip::kind::ChipKind;
use uart_chip::properties::TimeoutRule;
use uart_chip::source::EventSource;
use uart_rate::config::RxConfig;
use uart_rate::refusal::Refusal;

impl<C: Chip> Uart<C> {
    // Whether a timeout is too long for the chip.
    fn is_too_long(&self, timeout: Option<u8>) -> bool
        ensures { result ≡ too_long C.Kind.ChipKind.PROPERTIES.timeout_rule (rest_of C.EventSource self.now).fields timeout }
    {
        let Some(symbols) = timeout else {
            return false;
        };
        match C::Kind::PROPERTIES.timeout_rule {
            TimeoutRule::Symbols => symbols > 127,
            TimeoutRule::Bits => u64::from(symbols) * self.chip.registers().symbol_length() > 1023,
        }
    }

    // The receive timeout, or that there is none, and an update.
    pub(crate) fn change_rx_timeout(&mut self, timeout: Option<u8>) -> Result<(), Fault>
        requires { HasRoom (timeout_row C.Kind.ChipKind.PROPERTIES (rest_of C.EventSource self.old).fields timeout ∷ []) self.old }
        ensures { Ran C.EventSource C.Kind.ChipKind.PROPERTIES (timeout_row C.Kind.ChipKind.PROPERTIES (rest_of C.EventSource self.old).fields timeout ∷ []) self.old result self.new }
    {
        if self.is_too_long(timeout) {
            return Err(Fault::refused(Refusal::TimeoutTooLong, self.reads));
        }
        self.chip.write_timeout(timeout);
        self.update(Step::Receive)
    }

    // The receiver's settings.
    pub(crate) fn configure_rx(&mut self, config: &RxConfig) -> Result<(), Fault>
        requires { HasRoom (receive_rows C.Kind.ChipKind.PROPERTIES (rest_of C.EventSource self.old).fields config.now) self.old }
        ensures { Ran C.EventSource C.Kind.ChipKind.PROPERTIES (receive_rows C.Kind.ChipKind.PROPERTIES (rest_of C.EventSource self.old).fields config.now) self.old result self.new }
    {
        self.change_threshold(Fifo::Rx, config.fifo_full_threshold)?;
        self.change_rx_timeout(config.timeout)
    }
}
