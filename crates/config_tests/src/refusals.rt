// Refusals: what each leaves of a bank, and the polls made until then.
use super::banks::{fields, next_delay, overdue, refused, settings, used};
use std::process::Abort;
use uart_banks::scripted::Scripted;
use uart_banks::steps::Steps;
use uart_chip::chip::Chip;
use uart_chip::field::Field;
use uart_chip::source::EventSource;
use uart_config::fault::Fault;
use uart_config::step::Step;
use uart_config::uart::Uart;
use uart_rate::clocks::Clocks;
use uart_rate::config::BaudrateTolerance::{self, Closest, ErrorPercent, Exact};
use uart_rate::config::ClockSource::{self, Apb, RcFast, RefTick, Xtal};
use uart_rate::config::Config;
use uart_rate::esp32::Esp32;
use uart_rate::esp32c3::Esp32c3;
use uart_rate::esp32c6::Esp32c6;
use uart_rate::refusal::Refusal;

fn all_at(hertz: u32) -> Clocks {
    Clocks {
        apb_clock: hertz,
        rc_fast_clock: hertz,
        xtal_clock: hertz,
        ref_tick: hertz,
    }
}

// Source, clock, baud rate and tolerance that no chip may be configured by, and the refusal's number.
type Wrong = (ClockSource, u32, u32, BaudrateTolerance, u8);

// Where several tests fail, the first is told.
const WRONG: [Wrong; 13] = [
    (Apb, 80_000_000, 115_200, ErrorPercent(0), 1),
    (Apb, 80_000_000, 115_200, ErrorPercent(101), 1),
    (Apb, 0, 0, ErrorPercent(255), 1),
    (Apb, 80_000_000, 0, Closest, 2),
    (Apb, 80_000_000, 5_000_001, Closest, 2),
    (Apb, 0, 4_294_967_295, ErrorPercent(100), 2),
    (Apb, 0, 115_200, Closest, 3),
    (Apb, 268_435_456, 115_200, Closest, 3),
    (Apb, 4_294_967_295, 1, Closest, 3),
    (Apb, 80_000_000, 76, Closest, 4),
    (Apb, 268_435_455, 1, Exact, 4),
    (Apb, 312_499, 5_000_000, Closest, 4),
    (Apb, 1, 5_000_000, ErrorPercent(1), 4),
];

const WRONG_FOR_THE_ESP32: [Wrong; 2] = [
    (RcFast, 80_000_000, 115_200, Closest, 3),
    (Xtal, 80_000_000, 115_200, Closest, 3),
];

const WRONG_FOR_THE_OTHERS: [Wrong; 1] = [(RefTick, 80_000_000, 115_200, Closest, 3)];

// A call that is refused before its first write: the fields, the mark and the wire are as they were. `events`: what is left of the raw events and of the enabled ones.
fn is_untouched<K: Steps + Drop>(
    rt: &impl Abort,
    kind: K,
    row: &Wrong,
    inits: bool,
    events: (u32, u32),
) {
    let &(source, hertz, baud, tolerance, number) = row;
    let mut config = settings(source, baud);
    config.baudrate_tolerance = tolerance;
    config.rx.fifo_full_threshold = 128;
    let before = used(kind, Scripted::new(&[7], &[]));
    let marked = before.is_waiting();
    let fields_before = fields(&before);
    let mut uart = Uart::new(before, 4);
    let answer = if inits {
        uart.init(&config, &all_at(hertz))
    } else {
        uart.apply_config(&config, &all_at(hertz))
    };
    let mut chip = uart.into_chip();
    let told = answer.map_err(|fault| (fault.refusal.number(), fault.step, fault.reads));
    assert_eq!(rt; told, Err((number, None, 0)), "{hertz} hertz, {baud} baud");
    assert_eq!(rt; fields(&chip), fields_before);
    assert_eq!(rt; chip.is_waiting(), marked);
    assert_eq!(rt;
        (chip.raw_events().bits(), chip.enabled_events().bits()),
        events
    );
    assert_eq!(rt; next_delay(&mut chip), 7);
}

// An apply keeps the events. An init clears and disables them first, all but the three raw errors 16, 32 and 64.
fn are_untouched<K: Steps + Copy + Drop>(rt: &impl Abort, kind: K, rows: &[Wrong]) {
    for row in rows {
        is_untouched(rt, kind, row, false, (511, 511));
        is_untouched(rt, kind, row, true, (112, 0));
    }
}

#[test]
fn a_refusal_before_the_first_write(rt: HostRuntime) {
    are_untouched(&rt, Esp32, &WRONG);
    are_untouched(&rt, Esp32, &WRONG_FOR_THE_ESP32);
    are_untouched(&rt, Esp32c3, &WRONG);
    are_untouched(&rt, Esp32c3, &WRONG_FOR_THE_OTHERS);
    are_untouched(&rt, Esp32c6, &WRONG);
    are_untouched(&rt, Esp32c6, &WRONG_FOR_THE_OTHERS);
}

// APB at 80 MHz, the others at 1 MHz.
fn some_slow() -> Clocks {
    let mut clocks = all_at(1_000_000);
    clocks.apb_clock = 80_000_000;
    clocks
}

// 5,000,000 baud of 1 MHz: a divider of 3 sixteenths, and 6.66.. percent too fast. The threshold of 128 is not come to.
fn too_fast(source: ClockSource, tolerance: BaudrateTolerance) -> Config {
    let mut config = settings(source, 5_000_000);
    config.baudrate_tolerance = tolerance;
    config.rx.fifo_full_threshold = 128;
    config
}

// The default with a receive threshold, a timeout, and a transmit threshold of 128, which is one too many.
fn thresholds(receive: u16, timeout: u8) -> Config {
    let mut config = settings(Apb, 115_200);
    config.rx.fifo_full_threshold = receive;
    config.rx.timeout = Some(timeout);
    config.tx.fifo_empty_threshold = 128;
    config
}

// A call that is refused after some writes: what is asked, the answer, the delay that is next on the wire, the mark, and all fields.
type Stopped = (Config, Result<u32, Fault>, u32, bool, [u32; 36]);

// The wire's delays are 1, 2, 3, .., so the next tells how many updates were requested.
const DELAYS: [u32; 8] = [1, 2, 3, 4, 5, 6, 7, 8];

fn stops<K: Steps + Copy + Drop>(rt: &impl Abort, kind: K, row: Stopped) {
    let (config, answer, next, marked, fields_after) = row;
    let mut uart = Uart::new(used(kind, Scripted::new(&DELAYS, &[])), 20);
    assert_eq!(rt; uart.apply_config(&config, &some_slow()), answer);
    let mut chip = uart.into_chip();
    assert_eq!(rt; fields(&chip), fields_after);
    assert_eq!(rt; chip.is_waiting(), marked);
    assert_eq!(rt;
        (chip.raw_events().bits(), chip.enabled_events().bits()),
        (511, 511)
    );
    assert_eq!(rt; next_delay(&mut chip), next);
    let mut uart = Uart::new(used(kind, Scripted::new(&DELAYS, &[])), 20);
    assert_eq!(rt; uart.init(&config, &some_slow()), answer);
    let mut chip = uart.into_chip();
    assert_eq!(rt; fields(&chip), fields_after);
    assert_eq!(rt; chip.is_waiting(), marked);
    assert_eq!(rt;
        (chip.raw_events().bits(), chip.enabled_events().bits()),
        (112, 0)
    );
    assert_eq!(rt; next_delay(&mut chip), next);
}

// All fields of a C3 or a C6 after the divider of a rate that is too fast; after framing, at the default rate; with a receive threshold of 127; and with a timeout of 102 symbols of 10 bits and the receive FIFO reset.
const DIVIDED: [u32; 36] = [
    3, 0, 0, 0, 1, 9, 9, 0, 3, 9, 9, 9, 9, 0, 9, 9, 9, 9, 9, 9, 9, 9, 9, 9, 9, 9, 9, 9, 9, 9, 9, 9,
    9, 9, 9, 9,
];

const FRAMED: [u32; 36] = [
    1, 0, 0, 0, 1, 9, 9, 694, 7, 3, 0, 9, 1, 0, 9, 9, 9, 9, 0, 0, 0, 0, 9, 9, 9, 9, 9, 9, 9, 9, 9,
    9, 9, 9, 9, 9,
];

const FULL_AT_127: [u32; 36] = [
    1, 0, 0, 0, 1, 9, 9, 694, 7, 3, 0, 9, 1, 0, 9, 9, 9, 9, 0, 0, 0, 0, 9, 127, 9, 9, 9, 9, 9, 9,
    9, 9, 9, 9, 9, 9,
];

const RECEIVING: [u32; 36] = [
    1, 0, 0, 0, 1, 9, 9, 694, 7, 3, 0, 9, 1, 0, 9, 9, 9, 9, 0, 0, 0, 0, 9, 127, 1020, 1, 0, 9, 9,
    9, 9, 9, 9, 9, 9, 9,
];

#[test]
fn a_refusal_of_the_c3_after_some_writes(rt: HostRuntime) {
    let fast = refused(Refusal::BaudrateNotAchievable, 2);
    let threshold = refused(Refusal::RxFifoThresholdNotSupported, 2);
    let long = refused(Refusal::TimeoutTooLong, 2);
    let transmit = refused(Refusal::TxFifoThresholdNotSupported, 14);
    stops(
        &rt,
        Esp32c3,
        (too_fast(Xtal, Exact), fast, 2, false, DIVIDED),
    );
    stops(
        &rt,
        Esp32c3,
        (thresholds(128, 255), threshold, 2, true, FRAMED),
    );
    stops(
        &rt,
        Esp32c3,
        (thresholds(127, 103), long, 2, true, FULL_AT_127),
    );
    stops(
        &rt,
        Esp32c3,
        (thresholds(127, 102), transmit, 5, false, RECEIVING),
    );
}

#[test]
fn a_refusal_of_the_c6_after_some_writes(rt: HostRuntime) {
    let fast = refused(Refusal::BaudrateNotAchievable, 2);
    let threshold = refused(Refusal::RxFifoThresholdNotSupported, 5);
    let long = refused(Refusal::TimeoutTooLong, 5);
    let transmit = refused(Refusal::TxFifoThresholdNotSupported, 20);
    stops(
        &rt,
        Esp32c6,
        (too_fast(Xtal, ErrorPercent(6)), fast, 2, false, DIVIDED),
    );
    stops(
        &rt,
        Esp32c6,
        (thresholds(128, 255), threshold, 3, false, FRAMED),
    );
    stops(
        &rt,
        Esp32c6,
        (thresholds(127, 103), long, 3, false, FULL_AT_127),
    );
    stops(
        &rt,
        Esp32c6,
        (thresholds(127, 102), transmit, 6, false, RECEIVING),
    );
}

// The same of the ESP32, whose timeout is 127 symbols.
const ESP32_DIVIDED: [u32; 36] = [
    9, 9, 9, 9, 1, 9, 0, 0, 3, 9, 9, 9, 9, 0, 9, 9, 9, 9, 9, 9, 9, 9, 9, 9, 9, 9, 9, 9, 9, 9, 9, 9,
    9, 9, 9, 9,
];

const ESP32_FRAMED: [u32; 36] = [
    9, 9, 9, 9, 1, 9, 1, 694, 7, 3, 0, 9, 9, 0, 9, 9, 9, 9, 0, 0, 0, 0, 9, 9, 9, 9, 9, 9, 9, 9, 9,
    9, 9, 9, 9, 9,
];

const ESP32_FULL_AT_127: [u32; 36] = [
    9, 9, 9, 9, 1, 9, 1, 694, 7, 3, 0, 9, 9, 0, 9, 9, 9, 9, 0, 0, 0, 0, 9, 127, 9, 9, 9, 9, 9, 9,
    9, 9, 9, 9, 9, 9,
];

const ESP32_RECEIVING: [u32; 36] = [
    9, 9, 9, 9, 1, 9, 1, 694, 7, 3, 0, 9, 9, 0, 9, 9, 9, 9, 0, 0, 0, 0, 9, 127, 127, 1, 0, 9, 9, 9,
    9, 9, 9, 9, 9, 9,
];

#[test]
fn a_refusal_of_the_esp32_after_some_writes(rt: HostRuntime) {
    let fast = refused(Refusal::BaudrateNotAchievable, 0);
    let threshold = refused(Refusal::RxFifoThresholdNotSupported, 0);
    let long = refused(Refusal::TimeoutTooLong, 0);
    let transmit = refused(Refusal::TxFifoThresholdNotSupported, 0);
    stops(
        &rt,
        Esp32,
        (too_fast(RefTick, Exact), fast, 1, false, ESP32_DIVIDED),
    );
    stops(
        &rt,
        Esp32,
        (thresholds(128, 255), threshold, 1, false, ESP32_FRAMED),
    );
    stops(
        &rt,
        Esp32,
        (thresholds(127, 128), long, 1, false, ESP32_FULL_AT_127),
    );
    stops(
        &rt,
        Esp32,
        (thresholds(127, 127), transmit, 1, false, ESP32_RECEIVING),
    );
}

// An update that comes too late is told before a rate that is too fast, whose test comes after it.
#[test]
fn a_late_divider_is_told_before_the_tolerance(rt: HostRuntime) {
    for budget in [1, 2, 3, 20] {
        let mut uart = Uart::new(used(Esp32c3, Scripted::new(&[20, 7], &[])), budget);
        let answer = uart.apply_config(&too_fast(Xtal, Exact), &some_slow());
        let mut chip = uart.into_chip();
        assert_eq!(rt; answer, overdue(Step::Divider, u32::from(budget)));
        assert_eq!(rt; (chip.read(Field::Frag), chip.read(Field::BitNum)), (3, 9));
        assert_eq!(rt; next_delay(&mut chip), 7);
    }
}
