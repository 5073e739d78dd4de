// A wire on which every update takes the same time and nothing arrives.
ghost use Rattle.uart_chip.specs.Events.{none};
ghost use Rattle.uart_banks.specs.Wires.{nothing};

use uart_chip::arrival::Arrival;
use uart_chip::events::Events;
use uart_chip::wire::Wire;

#[derive(Clone, Copy, Debug, PartialEq, Eq, Hash)]
pub struct Steady {
    pub delay: u32,
}

impl Wire for Steady {
    ghost delays = { λ w _. w.delay };

    ghost arrivals = { λ _ _. nothing };

    fn next_delay(&mut self) -> u32 {
        self.delay
    }

    fn next_arrival(&mut self) -> Arrival {
        Arrival {
            events: Events::none(),
            bytes: 0,
        }
    }
}
