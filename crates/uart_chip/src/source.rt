// The event interface: what every UART can tell of its events.
ghost use Rattle.std.specs.Prelude.{◌≡◌, ℕ};
ghost use Rattle.uart_chip.specs.Device.{Rest, joined, looked, cleared, enabling, disabling};
ghost use Rattle.uart_chip.specs.declared.arrival.Arrival.{Arrival};
ghost use Rattle.uart_chip.specs.declared.events.Events.{Events};

use super::events::Events;

// The raw events and the byte count that a look leaves.
// No more is derived, for the time of a check: see `properties`.
#[derive(Clone, Copy)]
pub struct Look {
    pub raw: Events,
    pub count: u16,
}

// The clauses join the five members each time: a member made of the others could not be cited by them, since an impl might give another.
pub trait EventSource {
    ghost raw: { Self → Events };

    ghost enabled: { Self → Events };

    ghost count: { Self → ℕ };

    ghost arrivals: { Self → ℕ → Arrival };

    ghost rest: { Self → Rest };

    fn look(&mut self) -> Look
        ensures after { joined raw enabled count arrivals rest self.new ≡ looked (joined raw enabled count arrivals rest self.old) }
        ensures raw { result.raw ≡ raw self.new }
        ensures count { result.count ≡ count self.new };

    fn clear(&mut self, events: Events)
        ensures { joined raw enabled count arrivals rest self.new ≡ cleared events (joined raw enabled count arrivals rest self.old) };

    fn enable(&mut self, events: Events)
        ensures { joined raw enabled count arrivals rest self.new ≡ enabling events (joined raw enabled count arrivals rest self.old) };

    fn disable(&mut self, events: Events)
        ensures { joined raw enabled count arrivals rest self.new ≡ disabling events (joined raw enabled count arrivals rest self.old) };

    fn raw_events(&self) -> Events
        ensures { result ≡ raw self.now };

    fn enabled_events(&self) -> Events
        ensures { result ≡ enabled self.now };

    fn byte_count(&self) -> u16
        ensures { result ≡ count self.now };
}
