// All that can be seen of a chip at one moment.
ghost use Rattle.std.specs.Prelude.{◌≡◌};
ghost use Rattle.uart_chip.specs.Registers.{value_of};
ghost use Rattle.uart_chip.specs.Meanings.{meaning};

use super::chip::Chip;
use super::events::Events;
use super::registers::Registers;

// No more is derived, for the time of a check: see `properties`.
#[derive(Clone, Copy)]
pub struct Snapshot {
    pub registers: Registers,
    pub raw: Events,
    pub enabled: Events,
    pub count: u16,
    pub waiting: bool,
}

impl Snapshot {
    // What a chip shows: its fields, the raw and the enabled events, the byte count and the waiting mark.
    pub fn of<C: Chip>(chip: &C) -> Snapshot
        ensures fields { value_of result.registers ≡ (meaning C.EventSource chip.now).rest.fields }
        ensures raw { result.raw ≡ (meaning C.EventSource chip.now).raw }
        ensures enabled { result.enabled ≡ (meaning C.EventSource chip.now).enabled }
        ensures count { result.count ≡ (meaning C.EventSource chip.now).count }
        ensures waiting { result.waiting ≡ (meaning C.EventSource chip.now).rest.waiting }
    {
        Snapshot {
            registers: chip.registers(),
            raw: chip.raw_events(),
            enabled: chip.enabled_events(),
            count: chip.byte_count(),
            waiting: chip.is_waiting(),
        }
    }
}
