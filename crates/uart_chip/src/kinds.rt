// The kinds of events that a caller names: those of the receiver, those of the transmitter, and the driver's interrupts.
ghost use Rattle.uart_chip.specs.Kinds.{rx_event, tx_event, uart_event, rx_every, tx_every, uart_every};
ghost use Rattle.uart_chip.specs.Ranges.{rx_reached, tx_reached, uart_reached};
ghost use Rattle.std.proofs.Common.{rules};

use super::enum_set::EnumSet;
use super::event::Event;
use super::event_kind::EventKind;
use super::events::Events;

#[derive(Clone, Copy, Debug, PartialEq, Eq)]
pub enum RxEvent {
    FifoFull,
    CmdCharDetected,
    FifoOvf,
    FifoTout,
    GlitchDetected,
    FrameError,
    ParityError,
}

#[derive(Clone, Copy, Debug, PartialEq, Eq)]
pub enum TxEvent {
    Done,
    FiFoEmpty,
}

#[derive(Clone, Copy, Debug, PartialEq, Eq)]
pub enum UartInterrupt {
    AtCmd,
    TxDone,
    RxFifoFull,
    RxTimeout,
}

impl EventKind for RxEvent {
    ghost event = { rx_event };

    ghost every = { rx_every };

    ghost distinct = { Prim.search rules };

    ghost within = { Prim.search rules };

    ghost reached = { rx_reached };

    fn event(self) -> Event {
        match self {
            RxEvent::FifoFull => Event::FifoFull,
            RxEvent::CmdCharDetected => Event::CmdCharDetected,
            RxEvent::FifoOvf => Event::FifoOvf,
            RxEvent::FifoTout => Event::FifoTout,
            RxEvent::GlitchDetected => Event::GlitchDetected,
            RxEvent::FrameError => Event::FrameError,
            RxEvent::ParityError => Event::ParityError,
        }
    }

    fn every() -> Events {
        Events {
            done: false,
            fifo_empty: false,
            ..Events::all()
        }
    }
}

impl EventKind for TxEvent {
    ghost event = { tx_event };

    ghost every = { tx_every };

    ghost distinct = { Prim.search rules };

    ghost within = { Prim.search rules };

    ghost reached = { tx_reached };

    fn event(self) -> Event {
        match self {
            TxEvent::Done => Event::Done,
            TxEvent::FiFoEmpty => Event::FiFoEmpty,
        }
    }

    fn every() -> Events {
        Events {
            done: true,
            fifo_empty: true,
            ..Events::none()
        }
    }
}

impl EventKind for UartInterrupt {
    ghost event = { uart_event };

    ghost every = { uart_every };

    ghost distinct = { Prim.search rules };

    ghost within = { Prim.search rules };

    ghost reached = { uart_reached };

    fn event(self) -> Event {
        match self {
            UartInterrupt::AtCmd => Event::CmdCharDetected,
            UartInterrupt::TxDone => Event::Done,
            UartInterrupt::RxFifoFull => Event::FifoFull,
            UartInterrupt::RxTimeout => Event::FifoTout,
        }
    }

    fn every() -> Events {
        Events {
            cmd_char_detected: true,
            done: true,
            fifo_full: true,
            fifo_tout: true,
            ..Events::none()
        }
    }
}

// A set of receive events.
pub type RxEvents = EnumSet<RxEvent>;

// A set of transmit events.
pub type TxEvents = EnumSet<TxEvent>;

// A set of interrupts.
pub type UartInterrupts = EnumSet<UartInterrupt>;
