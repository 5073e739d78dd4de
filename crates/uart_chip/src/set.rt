// Sets of one kind of events, for every kind alike. `EnumSet` is the one implementation here; a set that is kept otherwise may be another.
ghost use Rattle.std.specs.Prelude.{◌≡◌, Bool, false, ◌≢◌};
ghost use Rattle.uart_chip.specs.Events.{holds};
ghost use Rattle.uart_chip.specs.declared.event.Event.{Event};
ghost use Rattle.uart_chip.specs.declared.events.Events.{Events};

use super::events::Events;

pub trait EventSet: Sized {
    type Kind;

    // which of the nine events a case of the kind is
    ghost event: { Self.Kind → Event };

    // whether a case is in a set
    ghost has: { Self → Self.Kind → Bool };

    // the events of a set
    ghost members: { Self → Events };

    // the set of those events that are of the kind
    ghost part: { Events → Self };

    // the two ways are methods and no `From`, since what they give is said by the ghost members above, of which the laws below speak
    fn events(self) -> Events
        ensures { result ≡ members self };

    fn from_events(events: Events) -> Self
        ensures { result ≡ part events };

    // distinct cases are distinct events, and so have distinct bits
    ghost distinct: { (a b : Self.Kind) → event a ≡ event b → a ≡ b };

    // a set is known by the cases that are in it
    ghost known: { (s t : Self) → ((k : Self.Kind) → has s k ≡ has t k) → s ≡ t };

    // the events of a set are those of its cases, and no others
    ghost cases: { (s : Self) (k : Self.Kind) → holds (members s) (event k) ≡ has s k };

    ghost range: { (s : Self) (e : Event) → ((k : Self.Kind) → event k ≢ e) → holds (members s) e ≡ false };

    // a case is in the set of the events that are of the kind if its event is among them
    ghost parts: { (es : Events) (k : Self.Kind) → has (part es) k ≡ holds es (event k) };
}
