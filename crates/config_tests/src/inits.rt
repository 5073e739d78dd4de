// The init call: an update that comes too late at each of its places, updates that come just in time, and the ESP32, which has none.
use super::banks::{clocks, fields, next_delay, overdue, settings, used};
use std::process::Abort;
use uart_banks::scripted::Scripted;
use uart_banks::steady::Steady;
use uart_banks::steps::Steps;
use uart_chip::chip::Chip;
use uart_chip::field::Field;
use uart_chip::source::EventSource;
use uart_config::step::Step;
use uart_config::uart::Uart;
use uart_rate::config::{ClockSource, Config, StopBits};
use uart_rate::esp32::Esp32;
use uart_rate::esp32c3::Esp32c3;
use uart_rate::esp32c6::Esp32c6;

// How often the tests here poll an update.
const BUDGET: u16 = 4;

// An init whose update comes too late: the wire's list, with 7 behind the delay of that update, the step and the polls that are told, and what `told` then reads.
#[derive(Clone, Copy)]
struct Late {
    delays: [u32; 12],
    step: Step,
    reads: u32,
    told: [u32; 12],
}

const LATE_C3: [Late; 10] = [
    Late {
        delays: [4, 7, 0, 0, 0, 0, 0, 0, 0, 0, 0, 0],
        step: Step::Divider,
        reads: 4,
        told: [1, 0, 694, 7, 9, 9, 9, 9, 9, 9, 9, 9],
    },
    Late {
        delays: [0, 1000, 7, 0, 0, 0, 0, 0, 0, 0, 0, 0],
        step: Step::Receive,
        reads: 5,
        told: [1, 0, 694, 7, 3, 120, 100, 9, 9, 9, 9, 9],
    },
    Late {
        delays: [0, 1, 4, 7, 0, 0, 0, 0, 0, 0, 0, 0],
        step: Step::RxReset,
        reads: 7,
        told: [1, 0, 694, 7, 3, 120, 100, 0, 9, 9, 9, 9],
    },
    Late {
        delays: [0, 1, 2, 1000, 7, 0, 0, 0, 0, 0, 0, 0],
        step: Step::RxReset,
        reads: 10,
        told: [1, 0, 694, 7, 3, 120, 100, 0, 9, 9, 9, 9],
    },
    Late {
        delays: [0, 1, 2, 3, 4, 7, 0, 0, 0, 0, 0, 0],
        step: Step::Transmit,
        reads: 14,
        told: [1, 0, 694, 7, 3, 120, 100, 0, 10, 0, 9, 9],
    },
    Late {
        delays: [0, 1, 2, 3, 1, 1000, 7, 0, 0, 0, 0, 0],
        step: Step::Transmit,
        reads: 16,
        told: [1, 0, 694, 7, 3, 120, 100, 0, 10, 0, 9, 9],
    },
    Late {
        delays: [0, 1, 2, 3, 1, 0, 4, 7, 0, 0, 0, 0],
        step: Step::RxReset,
        reads: 17,
        told: [1, 0, 694, 7, 3, 120, 100, 0, 10, 0, 9, 9],
    },
    Late {
        delays: [0, 1, 2, 3, 1, 0, 3, 1000, 7, 0, 0, 0],
        step: Step::RxReset,
        reads: 21,
        told: [1, 0, 694, 7, 3, 120, 100, 0, 10, 0, 9, 9],
    },
    Late {
        delays: [0, 1, 2, 3, 1, 0, 3, 2, 4, 7, 0, 0],
        step: Step::Transmit,
        reads: 24,
        told: [1, 0, 694, 7, 3, 120, 100, 0, 10, 0, 9, 9],
    },
    Late {
        delays: [0, 1, 2, 3, 1, 0, 3, 2, 1, 1000, 7, 0],
        step: Step::Transmit,
        reads: 26,
        told: [1, 0, 694, 7, 3, 120, 100, 0, 10, 0, 9, 9],
    },
];

const LATE_C6: [Late; 11] = [
    Late {
        delays: [4, 7, 0, 0, 0, 0, 0, 0, 0, 0, 0, 0],
        step: Step::Divider,
        reads: 4,
        told: [3, 1, 2083, 5, 9, 9, 9, 9, 9, 9, 9, 9],
    },
    Late {
        delays: [0, 1000, 7, 0, 0, 0, 0, 0, 0, 0, 0, 0],
        step: Step::Framing,
        reads: 5,
        told: [3, 1, 2083, 5, 3, 9, 9, 9, 9, 9, 9, 9],
    },
    Late {
        delays: [0, 1, 4, 7, 0, 0, 0, 0, 0, 0, 0, 0],
        step: Step::Receive,
        reads: 7,
        told: [3, 1, 2083, 5, 3, 120, 100, 9, 9, 9, 9, 9],
    },
    Late {
        delays: [0, 1, 2, 1000, 7, 0, 0, 0, 0, 0, 0, 0],
        step: Step::RxReset,
        reads: 10,
        told: [3, 1, 2083, 5, 3, 120, 100, 0, 9, 9, 9, 9],
    },
    Late {
        delays: [0, 1, 2, 3, 4, 7, 0, 0, 0, 0, 0, 0],
        step: Step::RxReset,
        reads: 14,
        told: [3, 1, 2083, 5, 3, 120, 100, 0, 9, 9, 9, 9],
    },
    Late {
        delays: [0, 1, 2, 3, 1, 1000, 7, 0, 0, 0, 0, 0],
        step: Step::Transmit,
        reads: 16,
        told: [3, 1, 2083, 5, 3, 120, 100, 0, 10, 0, 9, 9],
    },
    Late {
        delays: [0, 1, 2, 3, 1, 0, 4, 7, 0, 0, 0, 0],
        step: Step::Transmit,
        reads: 17,
        told: [3, 1, 2083, 5, 3, 120, 100, 0, 10, 0, 9, 9],
    },
    Late {
        delays: [0, 1, 2, 3, 1, 0, 3, 1000, 7, 0, 0, 0],
        step: Step::RxReset,
        reads: 21,
        told: [3, 1, 2083, 5, 3, 120, 100, 0, 10, 0, 9, 9],
    },
    Late {
        delays: [0, 1, 2, 3, 1, 0, 3, 2, 4, 7, 0, 0],
        step: Step::RxReset,
        reads: 24,
        told: [3, 1, 2083, 5, 3, 120, 100, 0, 10, 0, 9, 9],
    },
    Late {
        delays: [0, 1, 2, 3, 1, 0, 3, 2, 1, 1000, 7, 0],
        step: Step::Transmit,
        reads: 26,
        told: [3, 1, 2083, 5, 3, 120, 100, 0, 10, 0, 9, 9],
    },
    Late {
        delays: [0, 1, 2, 3, 1, 0, 3, 2, 1, 2, 4, 7],
        step: Step::Transmit,
        reads: 29,
        told: [3, 1, 2083, 5, 3, 120, 100, 0, 10, 0, 9, 9],
    },
];

// The fields that tell how far an init came: source, prescaler, divider (2), data bits, receive threshold, timeout, receive reset, transmit threshold, transmit reset, idle number, mask.
fn told<C: Chip>(chip: &C) -> [u32; 12] {
    [
        chip.read(Field::SclkSel),
        chip.read(Field::SclkDivNum),
        chip.read(Field::Clkdiv),
        chip.read(Field::Frag),
        chip.read(Field::BitNum),
        chip.read(Field::RxfifoFullThrhd),
        chip.read(Field::RxToutThrhd),
        chip.read(Field::RxfifoRst),
        chip.read(Field::TxfifoEmptyThrhd),
        chip.read(Field::TxfifoRst),
        chip.read(Field::TxIdleNum),
        chip.read(Field::ErrWrMask),
    ]
}

// An init over a row's wire. The three error events that init leaves stay raw, the mark is set, and no update was requested after the late one.
fn comes_late<K: Steps + Drop>(rt: &impl Abort, kind: K, config: &Config, row: &Late) {
    let mut uart = Uart::new(used(kind, Scripted::new(&row.delays, &[])), BUDGET);
    let answer = uart.init(config, &clocks());
    let mut chip = uart.into_chip();
    assert_eq!(rt; answer, overdue(row.step, row.reads));
    assert_eq!(rt; told(&chip), row.told, "after {} polls", row.reads);
    assert_eq!(rt; chip.raw_events().bits(), 112);
    assert_eq!(rt; chip.enabled_events().bits(), 0);
    assert_eq!(rt; chip.is_waiting(), true);
    assert_eq!(rt; next_delay(&mut chip), 7);
}

#[test]
fn an_update_too_late_in_an_init_of_the_c3(rt: HostRuntime) {
    let config = settings(ClockSource::Apb, 115_200);
    for row in LATE_C3 {
        comes_late(&rt, Esp32c3, &config, &row);
    }
}

#[test]
fn an_update_too_late_in_an_init_of_the_c6(rt: HostRuntime) {
    let config = settings(ClockSource::Xtal, 9_600);
    for row in LATE_C6 {
        comes_late(&rt, Esp32c6, &config, &row);
    }
}

// An init over a wire whose `late`th update is done by the last poll of the budget, and each other by the first. `updates`: how many it makes.
fn comes_in_time<K: Steps + Copy + Drop>(
    rt: &impl Abort,
    kind: K,
    config: &Config,
    updates: usize,
    polls: u32,
) {
    for late in 0..updates {
        let mut delays = [0; 12];
        if let Some(delay) = delays.get_mut(late) {
            *delay = 3;
        }
        if let Some(delay) = delays.get_mut(updates) {
            *delay = 7;
        }
        let mut uart = Uart::new(used(kind, Scripted::new(&delays, &[])), BUDGET);
        let answer = uart.init(config, &clocks());
        let mut chip = uart.into_chip();
        assert_eq!(rt; answer, Ok(polls), "late at {late}");
        assert_eq!(rt; chip.is_waiting(), false);
        assert_eq!(rt; next_delay(&mut chip), 7);
    }
}

#[test]
fn updates_just_in_time_in_an_init(rt: HostRuntime) {
    let config = settings(ClockSource::Apb, 115_200);
    comes_in_time(&rt, Esp32c3, &config, 10, 13);
    comes_in_time(&rt, Esp32c6, &config, 11, 14);
}

// An init that is accepted, each update with the last poll: the polls, and then all fields, no raw and no enabled event.
fn is_accepted<K: Steps + Drop>(
    rt: &impl Abort,
    kind: K,
    config: &Config,
    polls: u32,
    fields_after: [u32; 36],
) {
    let mut uart = Uart::new(used(kind, Steady { delay: 3 }), BUDGET);
    let answer = uart.init(config, &clocks());
    let chip = uart.into_chip();
    assert_eq!(rt; answer, Ok(polls));
    assert_eq!(rt; fields(&chip), fields_after);
    assert_eq!(rt; chip.raw_events().bits(), 0);
    assert_eq!(rt; chip.enabled_events().bits(), 0);
    assert_eq!(rt; chip.is_waiting(), false);
}

#[test]
fn what_an_init_leaves(rt: HostRuntime) {
    is_accepted(
        &rt,
        Esp32c3,
        &settings(ClockSource::Apb, 115_200),
        40,
        [
            1, 0, 0, 0, 1, 9, 9, 694, 7, 3, 0, 9, 1, 0, 9, 9, 9, 9, 0, 0, 0, 0, 9, 120, 100, 1, 0,
            0, 10, 9, 9, 9, 9, 9, 0, 1,
        ],
    );
    is_accepted(
        &rt,
        Esp32c6,
        &settings(ClockSource::Xtal, 9_600),
        44,
        [
            3, 1, 0, 0, 1, 9, 9, 2083, 5, 3, 0, 9, 1, 0, 9, 9, 9, 9, 0, 0, 0, 0, 9, 120, 100, 1, 0,
            0, 10, 9, 9, 9, 9, 9, 0, 1,
        ],
    );
}

// The ESP32 has no update: no polls, no delay is taken, and the mark is never set.
#[test]
fn the_esp32_inits_without_an_update(rt: HostRuntime) {
    let mut config = settings(ClockSource::RefTick, 9_600);
    config.stop_bits = StopBits::_2;
    config.rx.timeout = None;
    is_accepted(
        &rt,
        Esp32,
        &settings(ClockSource::Apb, 115_200),
        0,
        [
            9, 9, 9, 9, 1, 9, 1, 694, 7, 3, 0, 9, 9, 0, 9, 9, 9, 9, 0, 0, 0, 0, 9, 120, 10, 1, 0,
            0, 10, 9, 9, 9, 9, 9, 0, 1,
        ],
    );
    is_accepted(
        &rt,
        Esp32,
        &config,
        0,
        [
            9, 9, 9, 9, 1, 9, 0, 104, 2, 3, 0, 9, 1, 1, 9, 9, 9, 9, 0, 0, 0, 0, 9, 120, 9, 0, 0, 0,
            10, 9, 9, 9, 9, 9, 0, 1,
        ],
    );
    let mut uart = Uart::new(used(Esp32, Scripted::new(&[7], &[])), 1);
    let answer = uart.init(&config, &clocks());
    let mut chip = uart.into_chip();
    assert_eq!(rt; answer, Ok(0));
    assert_eq!(rt; next_delay(&mut chip), 7);
}

// An init of the C3 by default: the polls of its ten updates, or the update that is done by the second poll and so stands after the first.
#[test]
fn a_budget_of_0_counts_as_1(rt: HostRuntime) {
    let config = settings(ClockSource::Apb, 115_200);
    for budget in [0, 1] {
        let mut uart = Uart::new(used(Esp32c3, Scripted::new(&[], &[])), budget);
        assert_eq!(rt; uart.budget(), 1);
        let answer = uart.init(&config, &clocks());
        let _chip = uart.into_chip();
        assert_eq!(rt; answer, Ok(10));
        let mut uart = Uart::new(used(Esp32c3, Scripted::new(&[0, 0, 1, 7], &[])), budget);
        let answer = uart.init(&config, &clocks());
        let mut chip = uart.into_chip();
        assert_eq!(rt; answer, overdue(Step::RxReset, 3));
        assert_eq!(rt; next_delay(&mut chip), 7);
    }
}

// The largest budget: an update that its last poll finds done, and one that stands for longer than any budget.
#[test]
fn the_largest_budget(rt: HostRuntime) {
    let config = settings(ClockSource::Apb, 115_200);
    let wire = Scripted::new(&[65_534, 65_535, 7], &[]);
    let mut uart = Uart::new(used(Esp32c6, wire), 65_535);
    assert_eq!(rt;
        uart.init(&config, &clocks()),
        overdue(Step::Framing, 131_070)
    );
    assert_eq!(rt; next_delay(&mut uart.chip), 7);
    let _chip = uart.into_chip();
    let wire = Scripted::new(&[4_294_967_295, 7], &[]);
    let mut uart = Uart::new(used(Esp32c3, wire), 65_535);
    assert_eq!(rt;
        uart.init(&config, &clocks()),
        overdue(Step::Divider, 65_535)
    );
    assert_eq!(rt; next_delay(&mut uart.chip), 7);
    let _chip = uart.into_chip();
}
