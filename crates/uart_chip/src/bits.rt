// Sets of every kind as numbers. No `From` can be written for every type that is a set, so these are functions.
ghost use Rattle.std.specs.Prelude.{◌≡◌, ◌<◌};
ghost use Rattle.uart_chip.specs.Events.{numbered};

use super::events::Events;
use super::set::EventSet;

// The number whose bits are the events of a set.
pub fn bits_of<S: EventSet>(set: S) -> u32
    ensures members { numbered result ≡ S.EventSet.members set }
    ensures range { result < 512 }
    ensures back { S.EventSet.part (numbered result) ≡ set }
{
    set.events().bits()
}

// The set of the events of its kind that have their bits set in a number.
pub fn set_of<S: EventSet>(bits: u32) -> S
    ensures { result ≡ S.EventSet.part (numbered bits) }
{
    S::from_events(Events::from_bits(bits))
}

// A set made bits and back: it is the same set.
pub fn bits_and_back<S: EventSet>(set: S) -> S
    ensures { result ≡ set }
{
    set_of::<S>(bits_of::<S>(set))
}
