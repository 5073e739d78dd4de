// The wire interface: what a chip's silicon and the line will do, as two schedules.
ghost use Rattle.std.specs.Prelude.{◌≡◌, ℕ, ◌+◌};
ghost use Rattle.uart_chip.specs.declared.arrival.Arrival.{Arrival};

use super::arrival::Arrival;

pub trait Wire {
    // the delays of the updates to come
    ghost delays: { Self → ℕ → ℕ };

    // what the looks to come will find
    ghost arrivals: { Self → ℕ → Arrival };

    fn next_delay(&mut self) -> u32
        ensures value { result ≡ delays self.old 0 }
        ensures rest { delays self.new ≡ (λ k. delays self.old (k + 1)) }
        ensures same { arrivals self.new ≡ arrivals self.old };

    fn next_arrival(&mut self) -> Arrival
        ensures value { result ≡ arrivals self.old 0 }
        ensures rest { arrivals self.new ≡ (λ k. arrivals self.old (k + 1)) }
        ensures same { delays self.new ≡ delays self.old };
}
