// The chip interface: an event source that has fields and an update as well.
ghost use Rattle.std.specs.Prelude.{◌≡◌, [], ◌∷◌, nat_lt};
ghost use Rattle.uart_chip.specs.Device.{with_rest, requested, polled};
ghost use Rattle.uart_chip.specs.Meanings.{meaning, Wrote};
ghost use Rattle.uart_chip.specs.Registers.{value_of};
ghost use Rattle.uart_chip.specs.Steps.{clock_writes, stop_writes, timeout_writes, at_cmd_writes};

use super::at_cmd::AtCmdConfig;
use super::field::Field;
use super::kind::ChipKind;
use super::registers::Registers;
use super::source::EventSource;
use uart_rate::config::{ClockSource, StopBits};

pub trait Chip: EventSource {
    type Kind: ChipKind;

    // The value of a field.
    fn read(&self, field: Field) -> u32
        ensures { result ≡ (meaning Self.EventSource self.now).rest.fields field };

    // All fields.
    fn registers(&self) -> Registers
        ensures { value_of result ≡ (meaning Self.EventSource self.now).rest.fields };

    // Whether a write to the line waits for an update.
    fn is_waiting(&self) -> bool
        ensures { result ≡ (meaning Self.EventSource self.now).rest.waiting };

    // Gives a field a value.
    fn write(&mut self, field: Field, value: u32)
        ensures { Wrote Self.EventSource Self.Kind.ChipKind.PROPERTIES.has_update ((field, value) ∷ []) self.old self.new };

    // Requests an update.
    fn request(&mut self)
        ensures { meaning Self.EventSource self.new ≡ with_rest (requested (meaning Self.EventSource self.old).rest) (meaning Self.EventSource self.old) };

    // Reads whether the update still stands.
    fn stands(&mut self) -> bool
        ensures after { meaning Self.EventSource self.new ≡ with_rest (polled (meaning Self.EventSource self.old).rest) (meaning Self.EventSource self.old) }
        ensures stands { result ≡ nat_lt 1 (meaning Self.EventSource self.old).rest.standing };

    // Writes the clock source and the prescaler.
    fn write_clock(&mut self, source: ClockSource, prescaler: u16)
        ensures { Wrote Self.EventSource Self.Kind.ChipKind.PROPERTIES.has_update (clock_writes Self.Kind.ChipKind.PROPERTIES Self.Kind.BaudGenerator.P source prescaler) self.old self.new };

    // Writes the stop bits.
    fn write_stop(&mut self, stop: StopBits)
        ensures { Wrote Self.EventSource Self.Kind.ChipKind.PROPERTIES.has_update (stop_writes Self.Kind.ChipKind.PROPERTIES.stop_rule stop) self.old self.new };

    // Writes the receive timeout, or that there is none.
    fn write_timeout(&mut self, timeout: Option<u8>)
        ensures { Wrote Self.EventSource Self.Kind.ChipKind.PROPERTIES.has_update (timeout_writes Self.Kind.ChipKind.PROPERTIES.timeout_rule (meaning Self.EventSource self.old).rest.fields timeout) self.old self.new };

    // Writes what makes an AT command.
    fn write_at_cmd(&mut self, config: AtCmdConfig)
        ensures { Wrote Self.EventSource Self.Kind.ChipKind.PROPERTIES.has_update (at_cmd_writes Self.Kind.ChipKind.PROPERTIES.has_gate config) self.old self.new };
}
