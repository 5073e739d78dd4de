// The device's functions on the common core, over any wire. They stand apart from a bank's, since they are the same for every kind of chip.
ghost use Rattle.std.specs.Prelude.{◌≡◌, nat_lt};
ghost use Rattle.uart_banks.specs.Cores.{core_meaning, reads_left};
ghost use Rattle.uart_chip.specs.Device.{looked, cleared, enabling, disabling, with_rest, written, requested, polled};
ghost use Rattle.uart_chip.specs.Steps.{written_all, given};

use super::bank_core::Core;
use uart_chip::events::Events;
use uart_chip::field::Field;
use uart_chip::source::Look;
use uart_chip::wire::Wire;

impl<W: Wire> Core<W> {
    // Takes the next arrival.
    pub fn look(&mut self) -> Look
        ensures after { core_meaning W.Wire self.new ≡ looked (core_meaning W.Wire self.old) }
        ensures raw { result.raw ≡ self.new.raw }
        ensures count { result.count ≡ self.new.count }
    {
        let arrival = self.wire.next_arrival();
        self.raw = self.raw.union(arrival.events);
        self.count = arrival.bytes.min(128) as u16;
        Look {
            raw: self.raw,
            count: self.count,
        }
    }

    // Clears raw events.
    pub fn clear(&mut self, events: Events)
        ensures { core_meaning W.Wire self.new ≡ cleared events (core_meaning W.Wire self.old) }
    {
        self.raw = self.raw.without(events);
    }

    // Enables events.
    pub fn enable(&mut self, events: Events)
        ensures { core_meaning W.Wire self.new ≡ enabling events (core_meaning W.Wire self.old) }
    {
        self.enabled = self.enabled.union(events);
    }

    // Disables events.
    pub fn disable(&mut self, events: Events)
        ensures { core_meaning W.Wire self.new ≡ disabling events (core_meaning W.Wire self.old) }
    {
        self.enabled = self.enabled.without(events);
    }

    // Gives a field a value. A line field cancels the update that stands; on a chip with an update it then waits for one.
    pub fn write(&mut self, updates: bool, field: Field, value: u32)
        ensures { core_meaning W.Wire self.new ≡ with_rest (written updates field value (core_meaning W.Wire self.old).rest) (core_meaning W.Wire self.old) }
    {
        self.registers.write(field, value);
        if field.is_line() {
            self.standing = None;
            self.waiting |= updates;
        }
    }

    // Gives a field a value, if one is given.
    pub fn write_given(&mut self, updates: bool, field: Field, value: Option<u16>)
        ensures { core_meaning W.Wire self.new ≡ with_rest (written_all updates (given field value) (core_meaning W.Wire self.old).rest) (core_meaning W.Wire self.old) }
    {
        if let Some(value) = value {
            self.write(updates, field, u32::from(value));
        }
    }

    // Takes the next delay, and lets an update stand for so many reads.
    pub fn request(&mut self)
        ensures { core_meaning W.Wire self.new ≡ with_rest (requested (core_meaning W.Wire self.old).rest) (core_meaning W.Wire self.old) }
    {
        self.standing = Some(u64::from(self.wire.next_delay()));
    }

    // Reads whether the update stands; the read that finds it done ends the waiting.
    pub fn stands(&mut self) -> bool
        ensures after { core_meaning W.Wire self.new ≡ with_rest (polled (core_meaning W.Wire self.old).rest) (core_meaning W.Wire self.old) }
        ensures stands { result ≡ nat_lt 1 (reads_left self.old.standing) }
    {
        match self.standing {
            None => false,
            Some(0) => {
                self.standing = None;
                self.waiting = false;
                false
            }
            Some(reads) => {
                self.standing = Some(reads - 1);
                true
            }
        }
    }
}
