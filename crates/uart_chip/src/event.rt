// The nine events of a UART, and sets of them.
ghost use Rattle.std.specs.Prelude.{◌≡◌, ℕ, ◌+◌, ◌/◌, ◌%◌, ◌<◌, Bool, true, false, not, ◌&&◌, ◌||◌};
ghost use Rattle.uart_chip.specs.declared.event.Event.{Event};
ghost use Rattle.uart_chip.specs.Events.{number_of, among, none, every, empty, holds, union, meet, without, numbered};

use super::events::Events;

#[derive(Clone, Copy, Debug, PartialEq, Eq)]
pub enum Event {
    FifoFull = 0,
    CmdCharDetected = 1,
    FifoOvf = 2,
    FifoTout = 3,
    GlitchDetected = 4,
    FrameError = 5,
    ParityError = 6,
    Done = 7,
    FiFoEmpty = 8,
}

impl Event {
    // All nine, by their bits.
    pub const ALL: [Event; 9] = [
        Event::FifoFull,
        Event::CmdCharDetected,
        Event::FifoOvf,
        Event::FifoTout,
        Event::GlitchDetected,
        Event::FrameError,
        Event::ParityError,
        Event::Done,
        Event::FiFoEmpty,
    ];

    // The event's bit.
    pub fn number(self) -> u8
        ensures { result ≡ number_of self }
    {
        self as u8
    }
}

impl Events {
    // The set of the events of which a test is true.
    pub fn those<F: Fn(Event) -> bool>(test: F) -> Events
        requires { F.IsAlwaysCallable test }
        ensures { (event : Event) → F.post test event (holds result event) }
    {
        Events {
            fifo_full: test(Event::FifoFull),
            cmd_char_detected: test(Event::CmdCharDetected),
            fifo_ovf: test(Event::FifoOvf),
            fifo_tout: test(Event::FifoTout),
            glitch_detected: test(Event::GlitchDetected),
            frame_error: test(Event::FrameError),
            parity_error: test(Event::ParityError),
            done: test(Event::Done),
            fifo_empty: test(Event::FiFoEmpty),
        }
    }

    // No event.
    pub fn none() -> Events
        ensures { result ≡ none }
    {
        Events::those(|_| false)
    }

    // All nine events.
    pub fn all() -> Events
        ensures { result ≡ every }
    {
        Events::those(|_| true)
    }

    // The set of some events.
    pub fn of(events: &[Event]) -> Events
        ensures { result ≡ among events.now }
    {
        Events::those(|event| events.contains(&event))
    }

    // Whether an event is in the set.
    pub fn contains(self, event: Event) -> bool
        ensures { result ≡ holds self event }
    {
        match event {
            Event::FifoFull => self.fifo_full,
            Event::CmdCharDetected => self.cmd_char_detected,
            Event::FifoOvf => self.fifo_ovf,
            Event::FifoTout => self.fifo_tout,
            Event::GlitchDetected => self.glitch_detected,
            Event::FrameError => self.frame_error,
            Event::ParityError => self.parity_error,
            Event::Done => self.done,
            Event::FiFoEmpty => self.fifo_empty,
        }
    }

    // The events of either set.
    pub fn union(self, other: Events) -> Events
        ensures { result ≡ union self other }
    {
        Events::those(|event| self.contains(event) | other.contains(event))
    }

    // The events of both sets.
    pub fn intersection(self, other: Events) -> Events
        ensures { result ≡ meet self other }
    {
        Events::those(|event| self.contains(event) & other.contains(event))
    }

    // Whether the set has no event.
    pub fn is_empty(self) -> bool
        ensures { result ≡ empty self }
    {
        self == Events::none()
    }

    // The events of this set that are not in the other.
    pub fn without(self, other: Events) -> Events
        ensures { result ≡ without self other }
    {
        Events::those(|event| self.contains(event) & !other.contains(event))
    }

    // The set whose events have their bits set in a number; bits from 9 up say nothing, so this is no lossless conversion and no `From`.
    pub fn from_bits(bits: u32) -> Events
        ensures { result ≡ numbered bits }
    {
        Events::those(|event| (bits >> event.number()) % 2 == 1)
    }

    // The number whose bits are the events of the set; the way back of `from_bits`, and named like it.
    pub fn bits(self) -> u32
        ensures same { numbered result ≡ self }
        ensures range { result < 512 }
    {
        // Each weight is written out: a sum over `Event::ALL` by an iterator left its goals open.
        u32::from(self.fifo_full)
            + 2 * u32::from(self.cmd_char_detected)
            + 4 * u32::from(self.fifo_ovf)
            + 8 * u32::from(self.fifo_tout)
            + 16 * u32::from(self.glitch_detected)
            + 32 * u32::from(self.frame_error)
            + 64 * u32::from(self.parity_error)
            + 128 * u32::from(self.done)
            + 256 * u32::from(self.fifo_empty)
    }
}
