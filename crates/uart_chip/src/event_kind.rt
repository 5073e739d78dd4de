// A kind of events: its cases, each of them one of the nine.
ghost use Rattle.std.specs.Prelude.{◌≡◌, true};
ghost use Rattle.uart_chip.specs.Events.{holds};
ghost use Rattle.uart_chip.specs.declared.event.Event.{Event};
ghost use Rattle.uart_chip.specs.declared.events.Events.{Events};

use super::event::Event;
use super::events::Events;

pub trait EventKind: Copy {
    // which of the nine events a case is
    ghost event: { Self → Event };

    // the events of all cases
    ghost every: { Events };

    fn event(self) -> Event
        ensures { result ≡ event self };

    fn every() -> Events
        ensures { result ≡ every };

    // distinct cases are distinct events
    ghost distinct: { (a b : Self) → event a ≡ event b → a ≡ b };

    // the event of each case is one of the kind's
    ghost within: { (k : Self) → holds every (event k) ≡ true };

    // each of the kind's events is that of a case
    ghost reached: { (e : Event) → holds every e ≡ true → (k : Self) × (event k ≡ e) };
}
