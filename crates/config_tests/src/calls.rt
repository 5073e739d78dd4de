// The calls that set one thing: the receive threshold, the receive timeout, and what makes an AT command. At the end the polls of all calls.
use super::banks::{clocks, fields, next_delay, overdue, refused, settings, used};
use std::process::Abort;
use uart_banks::bank::Bank;
use uart_banks::scripted::Scripted;
use uart_banks::steady::Steady;
use uart_banks::steps::Steps;
use uart_chip::at_cmd::AtCmdConfig;
use uart_chip::chip::Chip;
use uart_chip::field::Field;
use uart_chip::source::EventSource;
use uart_config::rx_error::RxError;
use uart_config::step::Step;
use uart_config::uart::Uart;
use uart_rate::config::ClockSource;
use uart_rate::esp32::Esp32;
use uart_rate::esp32c3::Esp32c3;
use uart_rate::esp32c6::Esp32c6;
use uart_rate::refusal::Refusal;

// A threshold has no update: no polls, no delay is taken, and the mark stays as it was.
fn threshold<K: Steps + Drop>(rt: &impl Abort, kind: K) {
    let mut uart = Uart::new(used(kind, Scripted::new(&[7], &[])), 4);
    let marked = uart.chip.is_waiting();
    let mut expected = fields(&uart.chip);
    let refusal = refused(Refusal::RxFifoThresholdNotSupported, 0);
    assert_eq!(rt; uart.set_rx_fifo_full_threshold(128), refusal);
    assert_eq!(rt; uart.set_rx_fifo_full_threshold(65_535), refusal);
    assert_eq!(rt; fields(&uart.chip), expected);
    for threshold in [0, 127] {
        assert_eq!(rt; uart.set_rx_fifo_full_threshold(threshold), Ok(0));
        expected[23] = u32::from(threshold);
        assert_eq!(rt; fields(&uart.chip), expected);
    }
    let mut chip = uart.into_chip();
    assert_eq!(rt; chip.is_waiting(), marked);
    assert_eq!(rt; chip.raw_events().bits(), 511);
    assert_eq!(rt; next_delay(&mut chip), 7);
}

#[test]
fn the_receive_threshold_of_each_chip(rt: HostRuntime) {
    threshold(&rt, Esp32);
    threshold(&rt, Esp32c3);
    threshold(&rt, Esp32c6);
}

// bit_num, parity_en, stop_bit_num and dl1_en, the longest timeout in symbols, and its bits.
const LONGEST: [([u32; 4], u8, u32); 9] = [
    ([0, 0, 1, 0], 146, 1_022),
    ([0, 0, 3, 0], 127, 1_016),
    ([1, 0, 1, 0], 127, 1_016),
    ([1, 1, 1, 0], 113, 1_017),
    ([3, 0, 1, 0], 102, 1_020),
    ([2, 0, 1, 1], 102, 1_020),
    ([3, 1, 1, 0], 93, 1_023),
    ([3, 1, 2, 0], 85, 1_020),
    ([3, 1, 3, 0], 85, 1_020),
];

// The longest timeout is taken, and one symbol more is refused, with nothing written and no delay taken.
fn longest<K: Steps + Drop>(rt: &impl Abort, kind: K, format: [u32; 4], symbols: u8, bits: u32) {
    let mut bank = used(kind, Scripted::new(&[2, 7], &[]));
    let [data, parity, stop, extra] = format;
    bank.write(Field::BitNum, data);
    bank.write(Field::ParityEn, parity);
    bank.write(Field::StopBitNum, stop);
    bank.write(Field::Dl1En, extra);
    let mut uart = Uart::new(bank, 4);
    let mut expected = fields(&uart.chip);
    let refusal = refused(Refusal::TimeoutTooLong, 0);
    assert_eq!(rt;
        uart.set_rx_timeout(Some(symbols.saturating_add(1))),
        refusal
    );
    assert_eq!(rt; uart.set_rx_timeout(Some(255)), refusal);
    assert_eq!(rt; fields(&uart.chip), expected);
    assert_eq!(rt;
        uart.set_rx_timeout(Some(symbols)),
        Ok(3),
        "{symbols} symbols"
    );
    expected[24] = bits;
    expected[25] = 1;
    let mut chip = uart.into_chip();
    assert_eq!(rt; fields(&chip), expected);
    assert_eq!(rt; chip.is_waiting(), false);
    assert_eq!(rt; next_delay(&mut chip), 7);
}

#[test]
fn the_longest_timeout_in_bits(rt: HostRuntime) {
    for (format, symbols, bits) in LONGEST {
        longest(&rt, Esp32c3, format, symbols, bits);
        longest(&rt, Esp32c6, format, symbols, bits);
    }
}

// The ESP32 counts symbols, whatever their length, and takes no delay.
#[test]
fn the_longest_timeout_of_the_esp32(rt: HostRuntime) {
    let mut uart = Uart::new(used(Esp32, Scripted::new(&[7], &[])), 1);
    uart.chip.write(Field::BitNum, 3);
    let mut expected = fields(&uart.chip);
    for symbols in [128, 255] {
        assert_eq!(rt;
            uart.set_rx_timeout(Some(symbols)),
            refused(Refusal::TimeoutTooLong, 0)
        );
    }
    assert_eq!(rt; fields(&uart.chip), expected);
    for symbols in [127, 0] {
        assert_eq!(rt; uart.set_rx_timeout(Some(symbols)), Ok(0));
        expected[24] = u32::from(symbols);
        expected[25] = 1;
        assert_eq!(rt; fields(&uart.chip), expected);
    }
    assert_eq!(rt; uart.set_rx_timeout(None), Ok(0));
    expected[25] = 0;
    let mut chip = uart.into_chip();
    assert_eq!(rt; fields(&chip), expected);
    assert_eq!(rt; chip.is_waiting(), false);
    assert_eq!(rt; next_delay(&mut chip), 7);
}

// A timeout of 0 is one like any other; none keeps the length; a late update tells the step Receive, and what was written stays.
fn timeouts<K: Steps + Drop>(rt: &impl Abort, kind: K) {
    let wire = Scripted::new(&[0, 3, 4, 1_000, 7], &[]);
    let mut uart = Uart::new(used(kind, wire), 4);
    uart.chip.write(Field::BitNum, 3);
    uart.chip.write(Field::ParityEn, 0);
    uart.chip.write(Field::StopBitNum, 1);
    let mut expected = fields(&uart.chip);
    assert_eq!(rt; uart.set_rx_timeout(Some(0)), Ok(1));
    expected[24] = 0;
    expected[25] = 1;
    assert_eq!(rt; fields(&uart.chip), expected);
    assert_eq!(rt; uart.set_rx_timeout(Some(10)), Ok(4));
    expected[24] = 100;
    assert_eq!(rt; fields(&uart.chip), expected);
    assert_eq!(rt; uart.set_rx_timeout(None), overdue(Step::Receive, 4));
    expected[25] = 0;
    assert_eq!(rt; fields(&uart.chip), expected);
    assert_eq!(rt; uart.chip.is_waiting(), true);
    assert_eq!(rt; uart.set_rx_timeout(Some(1)), overdue(Step::Receive, 4));
    expected[24] = 10;
    expected[25] = 1;
    let mut chip = uart.into_chip();
    assert_eq!(rt; fields(&chip), expected);
    assert_eq!(rt; chip.is_waiting(), true);
    assert_eq!(rt; next_delay(&mut chip), 7);
}

#[test]
fn timeouts_of_the_c3_and_the_c6(rt: HostRuntime) {
    timeouts(&rt, Esp32c3);
    timeouts(&rt, Esp32c6);
}

// One option alone, or none where `option` is 3: the field at place 31 + `option` is written beside the character and the count, and the gate is `gate` afterwards.
fn one_option<K: Steps + Drop>(rt: &impl Abort, kind: K, option: u8, gate: u32, polls: u32) {
    let mut uart = Uart::new(used(kind, Scripted::new(&[1, 7], &[])), 2);
    uart.chip.core.registers.sclk_en = 0;
    let mut expected = fields(&uart.chip);
    expected[4] = gate;
    expected[29] = 43;
    expected[30] = 3;
    match option {
        0 => expected[31] = 65_535,
        1 => expected[32] = 65_535,
        2 => expected[33] = 65_535,
        _ => (),
    }
    let answer = uart.set_at_cmd(AtCmdConfig {
        pre_idle_count: (option == 0).then_some(65_535),
        post_idle_count: (option == 1).then_some(65_535),
        gap_timeout: (option == 2).then_some(65_535),
        cmd_char: 43,
        char_num: 3,
    });
    let mut chip = uart.into_chip();
    assert_eq!(rt; answer, Ok(polls));
    assert_eq!(rt; fields(&chip), expected, "option {option}");
    assert_eq!(rt; chip.is_waiting(), false);
    assert_eq!(rt; next_delay(&mut chip), if polls == 0 { 1 } else { 7 });
}

#[test]
fn an_at_command_with_and_without_options(rt: HostRuntime) {
    for option in 0..4 {
        one_option(&rt, Esp32, option, 0, 0);
        one_option(&rt, Esp32c3, option, 1, 2);
        one_option(&rt, Esp32c6, option, 1, 2);
    }
}

// An update that comes too late: all is written, the gate is open, and the mark is set.
fn late_at_cmd<K: Steps + Drop>(rt: &impl Abort, kind: K) {
    let mut uart = Uart::new(used(kind, Scripted::new(&[5, 7], &[])), 5);
    let mut expected = fields(&uart.chip);
    expected[29] = 255;
    expected[30] = 0;
    expected[31] = 1;
    expected[32] = 2;
    expected[33] = 3;
    let answer = uart.set_at_cmd(AtCmdConfig {
        pre_idle_count: Some(1),
        post_idle_count: Some(2),
        gap_timeout: Some(3),
        cmd_char: 255,
        char_num: 0,
    });
    let mut chip = uart.into_chip();
    assert_eq!(rt; answer, overdue(Step::AtCmd, 5));
    assert_eq!(rt; fields(&chip), expected);
    assert_eq!(rt; chip.is_waiting(), true);
    assert_eq!(rt; next_delay(&mut chip), 7);
}

#[test]
fn an_at_command_whose_update_comes_too_late(rt: HostRuntime) {
    late_at_cmd(&rt, Esp32c3);
    late_at_cmd(&rt, Esp32c6);
}

// Each update has two polls here. A call tells the polls of its own updates, whatever was polled before it.
#[test]
fn each_call_counts_its_own_polls(rt: HostRuntime) {
    let config = settings(ClockSource::Apb, 115_200);
    let wrong = settings(ClockSource::Apb, 0);
    let unusable = refused(Refusal::BaudrateNotSupported, 0);
    let command = AtCmdConfig {
        pre_idle_count: None,
        post_idle_count: None,
        gap_timeout: None,
        cmd_char: 43,
        char_num: 3,
    };
    let mut uart = Uart::new(Bank::fresh(Esp32c3, Steady { delay: 1 }), 2);
    assert_eq!(rt; uart.apply_config(&config, &clocks()), Ok(12));
    assert_eq!(rt;
        uart.set_rx_fifo_full_threshold(128),
        refused(Refusal::RxFifoThresholdNotSupported, 0)
    );
    assert_eq!(rt; uart.set_at_cmd(command), Ok(2));
    assert_eq!(rt; uart.set_rx_fifo_full_threshold(1), Ok(0));
    assert_eq!(rt; uart.set_rx_timeout(None), Ok(2));
    assert_eq!(rt;
        uart.set_rx_timeout(Some(103)),
        refused(Refusal::TimeoutTooLong, 0)
    );
    assert_eq!(rt; uart.init(&config, &clocks()), Ok(20));
    assert_eq!(rt; uart.init(&wrong, &clocks()), unusable);
    assert_eq!(rt; uart.set_at_cmd(command), Ok(2));
    assert_eq!(rt; uart.apply_config(&wrong, &clocks()), unusable);
    assert_eq!(rt;
        Err(uart.recover(RxError::FifoOverflowed)),
        refused(Refusal::FifoOverflowed, 4)
    );
    assert_eq!(rt;
        Err(uart.recover(RxError::GlitchOccurred)),
        refused(Refusal::GlitchOccurred, 0)
    );
    assert_eq!(rt; uart.check_for_errors(), Ok(0));
    let _chip = uart.into_chip();
}
