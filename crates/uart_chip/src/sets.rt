// A set of events of one kind keeps the interface of sets; its laws are proved once, for every kind.
ghost use Rattle.std.specs.Prelude.{◌≡◌, refl};
ghost use Rattle.std.proofs.Props.{props};
ghost use Rattle.uart_chip.specs.Events.{holds, meet};
ghost use Rattle.uart_chip.specs.Members.{Within-meet, none_beyond, same_built, same_cases, holds-part};

use super::enum_set::EnumSet;
use super::event_kind::EventKind;
use super::events::Events;
use super::set::EventSet;

impl<K: EventKind> EventSet for EnumSet<K> {
    type Kind = K;

    ghost event = { K.event };

    ghost has = { λ s k. holds s.events (K.event k) };

    ghost members = { λ s. s.events };

    ghost part = { λ es. record { events = meet es K.every; kind = record {}; of_kind = Within-meet es K.every } };

    ghost distinct = { K.distinct };

    ghost known = { λ s t same. same_built (λ es p. record { events = es; kind = record {}; of_kind = p }) (λ es. Prim.hlevel props) s.events t.events s.of_kind t.of_kind (same_cases K.event K.every K.reached s.events t.events s.of_kind t.of_kind same) };

    ghost cases = { λ s k. refl };

    ghost range = { λ s. none_beyond K.event K.every K.reached s.events s.of_kind };

    ghost parts = { λ es k. holds-part es K.every (K.event k) (K.within k) };

    fn events(self) -> Events {
        self.events
    }

    fn from_events(events: Events) -> EnumSet<K> {
        EnumSet::new(events)
    }
}
