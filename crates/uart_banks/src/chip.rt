// Every bank is an event source and a chip.
ghost use Rattle.uart_banks.specs.Cores.{core_rest};

use super::bank::Bank;
use super::steps::Steps;
use uart_chip::at_cmd::AtCmdConfig;
use uart_chip::chip::Chip;
use uart_chip::events::Events;
use uart_chip::field::Field;
use uart_chip::kind::ChipKind;
use uart_chip::registers::Registers;
use uart_chip::source::{EventSource, Look};
use uart_chip::wire::Wire;
use uart_rate::config::{ClockSource, StopBits};

impl<K, W: Wire> EventSource for Bank<K, W> {
    ghost raw = { λ b. b.core.raw };

    ghost enabled = { λ b. b.core.enabled };

    ghost count = { λ b. b.core.count };

    ghost arrivals = { λ b. W.Wire.arrivals b.core.wire };

    ghost rest = { λ b. core_rest W.Wire b.core };

    fn look(&mut self) -> Look {
        self.core.look()
    }

    fn clear(&mut self, events: Events) {
        self.core.clear(events);
    }

    fn enable(&mut self, events: Events) {
        self.core.enable(events);
    }

    fn disable(&mut self, events: Events) {
        self.core.disable(events);
    }

    fn raw_events(&self) -> Events {
        self.core.raw
    }

    fn enabled_events(&self) -> Events {
        self.core.enabled
    }

    fn byte_count(&self) -> u16 {
        self.core.count
    }
}

impl<K: Steps, W: Wire> Chip for Bank<K, W> {
    type Kind = K;

    fn read(&self, field: Field) -> u32 {
        self.core.registers.read(field)
    }

    fn registers(&self) -> Registers {
        self.core.registers
    }

    fn is_waiting(&self) -> bool {
        self.core.waiting
    }

    fn write(&mut self, field: Field, value: u32) {
        Bank::write(self, field, value);
    }

    fn request(&mut self) {
        self.core.request();
    }

    fn stands(&mut self) -> bool {
        self.core.stands()
    }

    fn write_clock(&mut self, source: ClockSource, prescaler: u16) {
        K::write_clock(&mut self.core, source, prescaler);
    }

    fn write_stop(&mut self, stop: StopBits) {
        K::write_stop(&mut self.core, stop);
    }

    fn write_timeout(&mut self, timeout: Option<u8>) {
        K::write_timeout(&mut self.core, timeout);
    }

    fn write_at_cmd(&mut self, config: AtCmdConfig) {
        K::write_at_cmd(&mut self.core, config);
    }
}
