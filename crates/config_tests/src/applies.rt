// Configurations that are accepted, the steps that a late update keeps back, and a FIFO's reset whose update comes too late.
use super::banks::{clocks, fields, next_delay, overdue, settings, used};
use std::process::Abort;
use uart_banks::scripted::Scripted;
use uart_banks::steps::Steps;
use uart_chip::chip::Chip;
use uart_chip::field::Field;
use uart_chip::source::EventSource;
use uart_config::step::Step;
use uart_config::uart::Uart;
use uart_rate::config::{
    ClockSource, Config, CtsConfig, DataBits, Parity, RtsConfig, StopBits, SwFlowControl,
};
use uart_rate::esp32::Esp32;
use uart_rate::esp32c3::Esp32c3;
use uart_rate::esp32c6::Esp32c6;

// Six data bits, else as by default.
fn six_bits(source: ClockSource, baud: u32) -> Config {
    let mut config = settings(source, baud);
    config.data_bits = DataBits::_6;
    config
}

// Seven data bits, odd parity, one and a half stop bits, every flow control, both thresholds at their limit, and no timeout.
fn controlled(source: ClockSource, baud: u32) -> Config {
    let mut config = settings(source, baud);
    config.data_bits = DataBits::_7;
    config.parity = Parity::Odd;
    config.stop_bits = StopBits::_1p5;
    config.sw_flow_ctrl = SwFlowControl::Enabled {
        xon_char: 17,
        xoff_char: 19,
        xon_threshold: 90,
        xoff_threshold: 100,
    };
    config.hw_flow_ctrl.cts = CtsConfig::Enabled;
    config.hw_flow_ctrl.rts = RtsConfig::Enabled(50);
    config.rx.fifo_full_threshold = 127;
    config.rx.timeout = None;
    config.tx.fifo_empty_threshold = 127;
    config
}

// Five data bits, even parity, two stop bits, an RTS threshold of 0, and a timeout of 85 symbols of 9 bits.
fn two_stops(source: ClockSource, baud: u32) -> Config {
    let mut config = settings(source, baud);
    config.data_bits = DataBits::_5;
    config.parity = Parity::Even;
    config.stop_bits = StopBits::_2;
    config.hw_flow_ctrl.rts = RtsConfig::Enabled(0);
    config.rx.timeout = Some(85);
    config
}

// An apply whose updates have the delays 1, 2, 3, ..: the polls, the delay that is next, and all fields. The events stay.
fn is_applied<K: Steps + Drop>(
    rt: &impl Abort,
    kind: K,
    config: &Config,
    told: (u32, u32),
    fields_after: [u32; 36],
) {
    let wire = Scripted::new(&[1, 2, 3, 4, 5, 6, 7, 8], &[]);
    let mut uart = Uart::new(used(kind, wire), 20);
    let answer = uart.apply_config(config, &clocks());
    let mut chip = uart.into_chip();
    let (polls, next) = told;
    assert_eq!(rt; answer, Ok(polls));
    assert_eq!(rt; fields(&chip), fields_after);
    assert_eq!(rt; chip.raw_events().bits(), 511);
    assert_eq!(rt; chip.enabled_events().bits(), 511);
    assert_eq!(rt; chip.is_waiting(), false);
    assert_eq!(rt; next_delay(&mut chip), next);
}

#[test]
fn six_updates_of_the_c3(rt: HostRuntime) {
    is_applied(
        &rt,
        Esp32c3,
        &six_bits(ClockSource::Apb, 9_600),
        (27, 7),
        [
            1, 2, 0, 0, 1, 9, 9, 2777, 12, 1, 0, 9, 1, 0, 9, 9, 9, 9, 0, 0, 0, 0, 9, 120, 80, 1, 0,
            0, 10, 9, 9, 9, 9, 9, 9, 9,
        ],
    );
    is_applied(
        &rt,
        Esp32c3,
        &controlled(ClockSource::RcFast, 9_600),
        (27, 7),
        [
            2, 0, 0, 0, 1, 1, 9, 1822, 14, 2, 1, 1, 2, 0, 17, 19, 90, 100, 1, 1, 1, 1, 50, 127, 9,
            0, 0, 0, 127, 9, 9, 9, 9, 9, 9, 9,
        ],
    );
    is_applied(
        &rt,
        Esp32c3,
        &two_stops(ClockSource::RcFast, 9_600),
        (27, 7),
        [
            2, 0, 0, 0, 1, 1, 9, 1822, 14, 0, 1, 0, 3, 0, 9, 9, 9, 9, 0, 0, 0, 1, 0, 120, 765, 1,
            0, 0, 10, 9, 9, 9, 9, 9, 9, 9,
        ],
    );
}

#[test]
fn seven_updates_of_the_c6(rt: HostRuntime) {
    is_applied(
        &rt,
        Esp32c6,
        &six_bits(ClockSource::Apb, 77),
        (35, 8),
        [
            1, 253, 0, 0, 1, 9, 9, 4090, 6, 1, 0, 9, 1, 0, 9, 9, 9, 9, 0, 0, 0, 0, 9, 120, 80, 1,
            0, 0, 10, 9, 9, 9, 9, 9, 9, 9,
        ],
    );
    is_applied(
        &rt,
        Esp32c6,
        &controlled(ClockSource::RcFast, 1_200),
        (35, 8),
        [
            2, 3, 0, 0, 1, 9, 9, 3645, 13, 2, 1, 1, 2, 0, 17, 19, 90, 100, 1, 1, 1, 1, 50, 127, 9,
            0, 0, 0, 127, 9, 9, 9, 9, 9, 9, 9,
        ],
    );
    is_applied(
        &rt,
        Esp32c6,
        &two_stops(ClockSource::RcFast, 1_200),
        (35, 8),
        [
            2, 3, 0, 0, 1, 9, 9, 3645, 13, 0, 1, 0, 3, 0, 9, 9, 9, 9, 0, 0, 0, 1, 0, 120, 765, 1,
            0, 0, 10, 9, 9, 9, 9, 9, 9, 9,
        ],
    );
}

#[test]
fn no_update_of_the_esp32(rt: HostRuntime) {
    is_applied(
        &rt,
        Esp32,
        &controlled(ClockSource::RefTick, 9_600),
        (0, 1),
        [
            9, 9, 9, 9, 1, 9, 0, 104, 2, 2, 1, 1, 9, 0, 17, 19, 90, 100, 1, 1, 1, 1, 50, 127, 9, 0,
            0, 0, 127, 9, 9, 9, 9, 9, 9, 9,
        ],
    );
    is_applied(
        &rt,
        Esp32,
        &two_stops(ClockSource::Apb, 9_600),
        (0, 1),
        [
            9, 9, 9, 9, 1, 9, 1, 8333, 5, 0, 1, 0, 1, 1, 9, 9, 9, 9, 0, 0, 0, 1, 0, 120, 85, 1, 0,
            0, 10, 9, 9, 9, 9, 9, 9, 9,
        ],
    );
}

// A reset's first update that stands: the reset is off again, the mark is set, and no second update was requested, so the next delay is 7 and no other.
#[test]
fn a_reset_whose_first_update_comes_too_late(rt: HostRuntime) {
    let config = settings(ClockSource::Apb, 115_200);
    let mut uart = Uart::new(used(Esp32c3, Scripted::new(&[0, 0, 4, 7, 5], &[])), 4);
    let answer = uart.apply_config(&config, &clocks());
    let mut chip = uart.into_chip();
    assert_eq!(rt; answer, overdue(Step::RxReset, 6));
    assert_eq!(rt; chip.read(Field::RxfifoRst), 0);
    assert_eq!(rt; chip.read(Field::TxfifoRst), 9);
    assert_eq!(rt; chip.read(Field::TxfifoEmptyThrhd), 9);
    assert_eq!(rt; chip.is_waiting(), true);
    assert_eq!(rt; next_delay(&mut chip), 7);
    let mut uart = Uart::new(
        used(Esp32c6, Scripted::new(&[0, 0, 0, 0, 0, 4, 7, 5], &[])),
        4,
    );
    let answer = uart.apply_config(&config, &clocks());
    let mut chip = uart.into_chip();
    assert_eq!(rt; answer, overdue(Step::Transmit, 9));
    assert_eq!(rt; chip.read(Field::RxfifoRst), 0);
    assert_eq!(rt; chip.read(Field::TxfifoRst), 0);
    assert_eq!(rt; chip.read(Field::TxfifoEmptyThrhd), 10);
    assert_eq!(rt; chip.is_waiting(), true);
    assert_eq!(rt; next_delay(&mut chip), 7);
}

// The polls are those of one call: after a call that failed, the next counts from 0, and finds the bank fit for use.
#[test]
fn a_call_after_one_that_failed(rt: HostRuntime) {
    let config = settings(ClockSource::Apb, 115_200);
    let mut uart = Uart::new(
        used(Esp32c3, Scripted::new(&[0, 9, 1, 1, 1, 1, 1, 1], &[])),
        4,
    );
    let first = uart.apply_config(&config, &clocks());
    let second = uart.apply_config(&config, &clocks());
    let third = uart.apply_config(&config, &clocks());
    let chip = uart.into_chip();
    assert_eq!(rt; first, overdue(Step::Receive, 5));
    assert_eq!(rt; second, Ok(12));
    assert_eq!(rt; third, Ok(6));
    assert_eq!(rt; chip.is_waiting(), false);
}
