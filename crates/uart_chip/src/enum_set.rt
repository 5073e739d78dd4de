// A set of events of one kind, as `EnumSet<RxEvent>`.
ghost use Rattle.std.specs.Prelude.{◌≡◌, ⊤, [], ◌∷◌};
ghost use Rattle.uart_chip.specs.Events.{among, empty, holds, meet, none, union, without, Within};

use super::event_kind::EventKind;
use super::events::Events;
use std::alloc::AllocError;
use std::marker::PhantomData;

#[derive_where(Debug, PartialEq, Eq)]
pub struct EnumSet<K: EventKind> {
    pub events: Events,
    kind: PhantomData<K>,
    pub ghost of_kind: { Within events K.every },
}

// `Clone` is written out: its derive was tried, and is refused on a generic type with a ghost field.
impl<K: EventKind> Clone for EnumSet<K> {
    ghost is_clone = { λ s t. t ≡ s };

    ghost is_infallible = { λ _. ⊤ };

    fn clone(&self) -> Result<EnumSet<K>, AllocError> {
        Ok(*self)
    }
}

impl<K: EventKind> Copy for EnumSet<K> {}

impl<K: EventKind> EnumSet<K> {
    // The set of those events that are of the kind.
    pub fn new(events: Events) -> EnumSet<K>
        ensures { result.events ≡ meet events K.every }
    {
        EnumSet {
            events: events.intersection(K::every()),
            kind: PhantomData,
        }
    }

    // The set of no case.
    pub fn none() -> EnumSet<K>
        ensures { result.events ≡ none }
    {
        EnumSet {
            events: Events::none(),
            kind: PhantomData,
        }
    }

    // The set of all cases.
    pub fn all() -> EnumSet<K>
        ensures { result.events ≡ K.every }
    {
        EnumSet {
            events: K::every(),
            kind: PhantomData,
        }
    }

    // The set of one case.
    pub fn only(case: K) -> EnumSet<K>
        ensures { result.events ≡ among (K.event case ∷ []) }
    {
        EnumSet {
            events: Events::of(&[case.event()]),
            kind: PhantomData,
        }
    }

    // Whether a case is in the set.
    pub fn contains(self, case: K) -> bool
        ensures { result ≡ holds self.events (K.event case) }
    {
        self.events.contains(case.event())
    }

    // The cases of either set.
    pub fn union(self, other: EnumSet<K>) -> EnumSet<K>
        ensures { result.events ≡ union self.events other.events }
    {
        EnumSet {
            events: self.events.union(other.events),
            kind: PhantomData,
        }
    }

    // The cases of this set that are not in the other.
    pub fn without(self, other: EnumSet<K>) -> EnumSet<K>
        ensures { result.events ≡ without self.events other.events }
    {
        EnumSet {
            events: self.events.without(other.events),
            kind: PhantomData,
        }
    }

    // Whether the set has no case.
    pub fn is_empty(self) -> bool
        ensures { result ≡ empty self.events }
    {
        self.events.is_empty()
    }
}
