// What the tests share: banks that show what a call leaves alone, what is read of them, and the clocks.
use uart_banks::bank::Bank;
use uart_banks::bank_core::Core;
use uart_banks::steps::Steps;
use uart_chip::chip::Chip;
use uart_chip::events::Events;
use uart_chip::field::Field;
use uart_chip::registers::Registers;
use uart_chip::wire::Wire;
use uart_config::fault::Fault;
use uart_config::step::Step;
use uart_rate::clocks::Clocks;
use uart_rate::config::{ClockSource, Config};
use uart_rate::refusal::Refusal;

// A bank in use: its gate is open, its extra stop bit off, 9 in the 34 other fields, and each event raw and enabled. The write sets the mark, where the chip has one.
pub fn used<K: Steps, W: Wire>(kind: K, wire: W) -> Bank<K, W> {
    let registers = Registers {
        sclk_en: 1,
        values: [9; 36],
    };
    let core = Core {
        wire,
        raw: Events::all(),
        enabled: Events::all(),
        count: 0,
        registers,
        waiting: false,
        standing: None,
    };
    let mut bank = Bank::in_state(kind, core);
    bank.write(Field::Dl1En, 0);
    bank
}

// All fields, by their places.
pub fn fields<C: Chip>(chip: &C) -> [u32; 36] {
    let registers = chip.registers();
    let mut values = registers.values;
    values[4] = registers.sclk_en;
    values
}

// The delay that the wire gives next, up to twenty: so many polls of one more request say that it stands.
pub fn next_delay<C: Chip>(chip: &mut C) -> u32 {
    chip.request();
    let mut polls = 0u32;
    for _ in 0..20 {
        if !chip.stands() {
            break;
        }
        polls = polls.saturating_add(1);
    }
    polls
}

pub fn clocks() -> Clocks {
    Clocks {
        apb_clock: 80_000_000,
        rc_fast_clock: 17_500_000,
        xtal_clock: 40_000_000,
        ref_tick: 1_000_000,
    }
}

// The settings of a caller who names only source and baud rate.
pub fn settings(source: ClockSource, baudrate: u32) -> Config {
    let mut config = Config::from_source(source);
    config.baudrate = baudrate;
    config
}

// What is told of an update that still stands.
pub fn overdue(step: Step, reads: u32) -> Result<u32, Fault> {
    Err(Fault {
        refusal: Refusal::UpdateTimedOut,
        step: Some(step),
        reads,
    })
}

// What is told of a test that failed.
pub fn refused(refusal: Refusal, reads: u32) -> Result<u32, Fault> {
    Err(Fault {
        refusal,
        step: None,
        reads,
    })
}
