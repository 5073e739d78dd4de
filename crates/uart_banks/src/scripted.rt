// A wire that does what two lists say.
ghost use Rattle.std.specs.Prelude.{◌≡◌, ℕ, ◌+◌};
ghost use Rattle.uart_banks.specs.Wires.{delay_at, arrival_at, last_count};

use uart_chip::arrival::Arrival;
use uart_chip::events::Events;
use uart_chip::wire::Wire;

// What is left of the two lists. The coding of an arrival is this wire's own, so it is no `From` of arrivals.
#[derive(Clone, Copy, Debug, PartialEq, Eq, Hash)]
pub struct Scripted<'a> {
    delays: &'a [u32],
    arrivals: &'a [u32],
    // the byte count of the last arrival of the whole list, which stays once the list is through
    last: u32,
}

impl<'a> Scripted<'a> {
    // The wire of two lists: a delay for each update, and for each look an arrival, its events + 512 × its bytes.
    pub fn new(delays: &'a [u32], arrivals: &'a [u32]) -> Scripted<'a>
        ensures delays { result.delays.now ≡ delays.now }
        ensures arrivals { result.arrivals.now ≡ arrivals.now }
        ensures last { result.last ≡ last_count arrivals.now }
    {
        Scripted {
            delays,
            arrivals,
            last: arrivals.last().map_or(0, |number| number / 512),
        }
    }
}

impl Wire for Scripted<'_> {
    ghost delays = { λ w. delay_at w.delays.now };

    ghost arrivals = { λ w. arrival_at w.arrivals.now w.last };

    fn next_delay(&mut self) -> u32 {
        match self.delays.split_first() {
            Some((&delay, rest)) => {
                self.delays = rest;
                delay
            }
            None => 0,
        }
    }

    fn next_arrival(&mut self) -> Arrival {
        match self.arrivals.split_first() {
            Some((&number, rest)) => {
                self.arrivals = rest;
                Arrival {
                    events: Events::from_bits(number),
                    bytes: number / 512,
                }
            }
            None => Arrival {
                events: Events::none(),
                bytes: self.last,
            },
        }
    }
}
