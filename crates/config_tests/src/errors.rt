// Line errors: which one is told, what is cleared, and the reset after an overflow.
use super::banks::{fields, next_delay, overdue, refused, used};
use std::process::Abort;
use uart_banks::bank::Bank;
use uart_banks::scripted::Scripted;
use uart_banks::steps::Steps;
use uart_chip::chip::Chip;
use uart_chip::events::Events;
use uart_chip::field::Field;
use uart_chip::source::EventSource;
use uart_config::rx_error::{RxError, rx_event_check_for_error};
use uart_config::step::Step;
use uart_config::uart::Uart;
use uart_rate::esp32::Esp32;
use uart_rate::esp32c3::Esp32c3;
use uart_rate::esp32c6::Esp32c6;
use uart_rate::refusal::Refusal;

// The raw events, the refusal that tells of them, and the events that are left. All nine are 511; the overflow is 4, the timeout 8, glitch 16, framing 32, parity 64.
const ERRORS: [(u32, Refusal, u32); 11] = [
    (511, Refusal::FifoOverflowed, 387),
    (507, Refusal::GlitchOccurred, 387),
    (491, Refusal::FrameFormatViolated, 387),
    (459, Refusal::ParityMismatch, 387),
    (4, Refusal::FifoOverflowed, 0),
    (12, Refusal::FifoOverflowed, 0),
    (84, Refusal::FifoOverflowed, 0),
    (16, Refusal::GlitchOccurred, 0),
    (32, Refusal::FrameFormatViolated, 0),
    (224, Refusal::FrameFormatViolated, 128),
    (64, Refusal::ParityMismatch, 0),
];

// Every error of the table, with 20 bytes. `polls`: those of the reset after an overflow; the other errors have none, and change no field.
fn told<K: Steps + Copy + Drop>(rt: &impl Abort, kind: K, polls: u32) {
    for (raw, refusal, left) in ERRORS {
        let arrivals = [raw.saturating_add(10_240)];
        let mut bank = Bank::fresh(kind, Scripted::new(&[1, 2, 7], &arrivals));
        bank.enable(Events::all());
        let mut expected = fields(&bank);
        let mut uart = Uart::new(bank, 3);
        uart.chip.write(Field::RxfifoRst, 9);
        uart.chip.write(Field::TxfifoRst, 9);
        expected[26] = 9;
        expected[27] = 9;
        let mut reads = 0;
        if refusal == Refusal::FifoOverflowed {
            expected[26] = 0;
            reads = polls;
        }
        let marked = uart.chip.is_waiting() && reads == 0;
        assert_eq!(rt;
            uart.check_for_errors(),
            refused(refusal, reads),
            "events {raw}"
        );
        let mut chip = uart.into_chip();
        assert_eq!(rt; chip.raw_events().bits(), left, "events {raw}");
        assert_eq!(rt; chip.enabled_events().bits(), 511);
        assert_eq!(rt; chip.byte_count(), 20);
        assert_eq!(rt; fields(&chip), expected);
        assert_eq!(rt; chip.is_waiting(), marked);
        assert_eq!(rt; next_delay(&mut chip), if reads == 0 { 1 } else { 7 });
    }
}

#[test]
fn errors_in_their_order(rt: HostRuntime) {
    told(&rt, Esp32, 0);
    told(&rt, Esp32c3, 5);
    told(&rt, Esp32c6, 5);
}

// Events that are no errors stay, the receive timeout too: 395 is all but the four. The errors 16 and 64 that an earlier look brought are told as well, and cleared with the timeout.
fn looks<K: Steps + Drop>(rt: &impl Abort, kind: K) {
    let bank = Bank::fresh(kind, Scripted::new(&[7], &[395, 0, 80, 512, 96]));
    let mut uart = Uart::new(bank, 1);
    let before = fields(&uart.chip);
    assert_eq!(rt; uart.check_for_errors(), Ok(0));
    assert_eq!(rt; uart.chip.raw_events().bits(), 395);
    assert_eq!(rt; uart.check_for_errors(), Ok(0));
    assert_eq!(rt; uart.chip.raw_events().bits(), 395);
    let _look = uart.chip.look();
    assert_eq!(rt; uart.chip.byte_count(), 0);
    assert_eq!(rt;
        uart.check_for_errors(),
        refused(Refusal::GlitchOccurred, 0)
    );
    assert_eq!(rt; uart.chip.raw_events().bits(), 387);
    assert_eq!(rt; uart.chip.byte_count(), 1);
    assert_eq!(rt;
        uart.check_for_errors(),
        refused(Refusal::FrameFormatViolated, 0)
    );
    assert_eq!(rt; uart.chip.raw_events().bits(), 387);
    let mut chip = uart.into_chip();
    assert_eq!(rt; fields(&chip), before);
    assert_eq!(rt; chip.is_waiting(), false);
    assert_eq!(rt; next_delay(&mut chip), 7);
}

#[test]
fn nothing_is_cleared_without_an_error(rt: HostRuntime) {
    looks(&rt, Esp32);
    looks(&rt, Esp32c3);
    looks(&rt, Esp32c6);
}

// An overflow whose reset does not come to its end: the polls of one late update, and of a first in time with a late second. The answer tells the update; the events are cleared, and the reset is off.
fn overflows<K: Steps + Copy + Drop>(rt: &impl Abort, kind: K) {
    for (delays, reads) in [([4, 7, 0], 4), ([2, 4, 7], 7), ([3, 1_000, 7], 8)] {
        let bank = used(kind, Scripted::new(&delays, &[]));
        let mut expected = fields(&bank);
        expected[26] = 0;
        let mut uart = Uart::new(bank, 4);
        assert_eq!(rt; uart.check_for_errors(), overdue(Step::ErrorReset, reads));
        let mut chip = uart.into_chip();
        assert_eq!(rt; chip.raw_events().bits(), 387);
        assert_eq!(rt; chip.enabled_events().bits(), 511);
        assert_eq!(rt; fields(&chip), expected);
        assert_eq!(rt; chip.is_waiting(), true);
        assert_eq!(rt; next_delay(&mut chip), 7, "after {reads} polls");
    }
}

#[test]
fn an_overflow_whose_reset_comes_too_late(rt: HostRuntime) {
    overflows(&rt, Esp32c3);
    overflows(&rt, Esp32c6);
}

// What follows an error that is known already: no look and no event is cleared, and the receive FIFO is reset after an overflow alone.
#[test]
fn recovery_from_each_error(rt: HostRuntime) {
    let wire = Scripted::new(&[1, 2, 9, 7], &[0]);
    let mut uart = Uart::new(used(Esp32c3, wire), 4);
    let mut expected = fields(&uart.chip);
    for (error, refusal) in [
        (RxError::GlitchOccurred, Refusal::GlitchOccurred),
        (RxError::FrameFormatViolated, Refusal::FrameFormatViolated),
        (RxError::ParityMismatch, Refusal::ParityMismatch),
    ] {
        assert_eq!(rt; Err(uart.recover(error)), refused(refusal, 0));
    }
    assert_eq!(rt; fields(&uart.chip), expected);
    let overflow = uart.recover(RxError::FifoOverflowed);
    assert_eq!(rt; Err(overflow), refused(Refusal::FifoOverflowed, 5));
    expected[26] = 0;
    assert_eq!(rt; fields(&uart.chip), expected);
    let overflow = uart.recover(RxError::FifoOverflowed);
    assert_eq!(rt; Err(overflow), overdue(Step::ErrorReset, 4));
    let mut chip = uart.into_chip();
    assert_eq!(rt; fields(&chip), expected);
    assert_eq!(rt; chip.raw_events().bits(), 511);
    assert_eq!(rt; next_delay(&mut chip), 7);
}

#[test]
fn the_first_error_among_events(rt: HostRuntime) {
    for (bits, outcome) in [
        (0, Ok(())),
        (395, Ok(())),
        (511, Err(RxError::FifoOverflowed)),
        (507, Err(RxError::GlitchOccurred)),
        (491, Err(RxError::FrameFormatViolated)),
        (459, Err(RxError::ParityMismatch)),
    ] {
        assert_eq!(rt; rx_event_check_for_error(Events::from_bits(bits)), outcome);
    }
}
