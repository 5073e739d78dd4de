// Each bank is driven over a scripted wire: fields, updates with delays 0, 1 and 3, and looks past the end of the list.
use super::fifth::Fifth;
use super::fourth::Fourth;
use std::process::Abort;
use uart_banks::bank::Bank;
use uart_banks::bank_core::Core;
use uart_banks::scripted::Scripted;
use uart_banks::steady::Steady;
use uart_banks::steps::Steps;
use uart_chip::at_cmd::AtCmdConfig;
use uart_chip::chip::Chip;
use uart_chip::event::Event;
use uart_chip::events::Events;
use uart_chip::field::Field;
use uart_chip::source::EventSource;
use uart_chip::wire::Wire;
use uart_rate::config::{ClockSource, StopBits};
use uart_rate::esp32::Esp32;
use uart_rate::esp32c3::Esp32c3;
use uart_rate::esp32c6::Esp32c6;

// How many reads say that an update stands, up to ten.
fn standing<C: Chip>(chip: &mut C) -> usize {
    (0..10u32).take_while(|_| chip.stands()).count()
}

// Updates with delays 0, 1 and 3, and one past the end. `marks`: the chip has an update.
fn updates<C: Chip>(rt: &impl Abort, chip: &mut C, marks: bool) {
    assert_eq!(rt; chip.is_waiting(), false);
    assert_eq!(rt; chip.stands(), false, "none stands");
    chip.write(Field::Clkdiv, 694);
    chip.write(Field::TxIdleNum, 7);
    assert_eq!(rt; chip.read(Field::Clkdiv), 694);
    assert_eq!(rt; chip.read(Field::TxIdleNum), 7);
    assert_eq!(rt; chip.read(Field::Frag), 0);
    assert_eq!(rt; chip.is_waiting(), marks);
    chip.request();
    assert_eq!(rt; standing(chip), 0);
    assert_eq!(rt; chip.is_waiting(), false);
    chip.write(Field::RxToutEn, 1);
    chip.request();
    assert_eq!(rt; chip.stands(), true);
    assert_eq!(rt; chip.is_waiting(), marks);
    assert_eq!(rt; chip.stands(), false);
    assert_eq!(rt; chip.is_waiting(), false);
    chip.request();
    assert_eq!(rt; standing(chip), 3);
    chip.request();
    assert_eq!(rt; standing(chip), 0, "past the end of the list");
}

// A request that is cancelled by a line field's write, and not by another's.
fn cancelled<C: Chip>(rt: &impl Abort, chip: &mut C) {
    chip.request();
    chip.write(Field::RxfifoFullThrhd, 20);
    assert_eq!(rt; chip.stands(), true);
    chip.write(Field::BitNum, 3);
    assert_eq!(rt; chip.stands(), false);
}

// Looks through a list of two arrivals, FifoFull and FifoOvf with 8 bytes, then Done with 200, and past its end.
fn looks<C: EventSource>(rt: &impl Abort, chip: &mut C) {
    let first = chip.look();
    assert_eq!(rt; first.raw.bits(), 5);
    assert_eq!(rt; first.count, 8);
    chip.clear(Events::from_bits(1));
    assert_eq!(rt; chip.raw_events().bits(), 4);
    let second = chip.look();
    assert_eq!(rt; second.raw.bits(), 132);
    assert_eq!(rt; second.count, 128);
    chip.enable(Events::from_bits(132));
    chip.disable(Events::from_bits(128));
    assert_eq!(rt; chip.enabled_events().bits(), 4);
    chip.clear(Events::all());
    let third = chip.look();
    assert_eq!(rt; third.raw.bits(), 0, "past the end of the list");
    assert_eq!(rt; third.count, 128);
    assert_eq!(rt; chip.byte_count(), 128);
}

const DELAYS: [u32; 3] = [0, 1, 3];

// 5 + 512 × 8, and 128 + 512 × 200
const ARRIVALS: [u32; 2] = [4_101, 102_528];

fn drive<K: Steps + Drop>(rt: &impl Abort, kind: K, marks: bool) {
    let mut chip = Bank::fresh(kind, Scripted::new(&DELAYS, &ARRIVALS));
    assert_eq!(rt; chip.read(Field::SclkEn), 1);
    assert_eq!(rt; chip.read(Field::ErrWrMask), 0);
    updates(rt, &mut chip, marks);
    looks(rt, &mut chip);
}

fn command() -> AtCmdConfig {
    AtCmdConfig {
        pre_idle_count: Some(9),
        post_idle_count: None,
        gap_timeout: Some(4),
        cmd_char: 43,
        char_num: 3,
    }
}

#[test]
fn each_bank_over_a_scripted_wire(rt: HostRuntime) {
    drive(&rt, Esp32, false);
    drive(&rt, Esp32c3, true);
    drive(&rt, Esp32c6, true);
    drive(&rt, Fourth, true);
}

#[test]
fn a_line_field_cancels_an_update(rt: HostRuntime) {
    cancelled(&rt, &mut Bank::fresh(Esp32c3, Steady { delay: 5 }));
    cancelled(&rt, &mut Bank::fresh(Fourth, Steady { delay: 5 }));
}

#[test]
fn an_empty_list_leaves_no_bytes(rt: HostRuntime) {
    let mut chip = Bank::fresh(Esp32c6, Scripted::new(&[], &[]));
    chip.core.count = 77;
    assert_eq!(rt; chip.look().count, 0);
    let mut chip = Bank::fresh(Esp32, Steady { delay: 9 });
    chip.core.count = 77;
    assert_eq!(rt; chip.look().count, 0);
}

#[test]
fn the_esp32_in_its_own_ways(rt: HostRuntime) {
    let mut chip = Bank::fresh(Esp32, Steady { delay: 0 });
    chip.write_clock(ClockSource::Apb, 7);
    assert_eq!(rt; chip.read(Field::TickRefAlwaysOn), 1);
    chip.write_clock(ClockSource::RefTick, 7);
    assert_eq!(rt; chip.read(Field::TickRefAlwaysOn), 0);
    assert_eq!(rt; chip.read(Field::SclkDivNum), 0);
    chip.write_stop(StopBits::_2);
    assert_eq!(rt; chip.read(Field::Dl1En), 1);
    chip.write_stop(StopBits::_1p5);
    assert_eq!(rt; chip.read(Field::StopBitNum), 1);
    chip.write_timeout(Some(200));
    assert_eq!(rt; chip.read(Field::RxToutThrhd), 200);
    chip.core.registers.sclk_en = 0;
    chip.write_at_cmd(command());
    assert_eq!(rt; chip.read(Field::SclkEn), 0, "there is no gate to open");
    assert_eq!(rt; chip.read(Field::RxGapTout), 4);
}

#[test]
fn the_others_in_theirs(rt: HostRuntime) {
    let mut chip = Bank::fresh(Esp32c3, Steady { delay: 0 });
    chip.write_clock(ClockSource::Xtal, 256);
    assert_eq!(rt; chip.read(Field::SclkSel), 3);
    assert_eq!(rt; chip.read(Field::SclkDivNum), 255);
    assert_eq!(rt; chip.read(Field::DigClk8mEn), 0);
    chip.write_clock(ClockSource::RcFast, 1);
    assert_eq!(rt; chip.read(Field::DigClk8mEn), 1);
    chip.write(Field::BitNum, 3);
    chip.write_stop(StopBits::_1);
    chip.write_timeout(Some(10));
    assert_eq!(rt;
        chip.read(Field::RxToutThrhd),
        100,
        "8 data bits, no parity, one stop bit: 10 bits"
    );
    chip.write_timeout(None);
    assert_eq!(rt; chip.read(Field::RxToutEn), 0);
    assert_eq!(rt; chip.read(Field::RxToutThrhd), 100);
    chip.core.registers.sclk_en = 0;
    chip.write_at_cmd(command());
    assert_eq!(rt; chip.read(Field::SclkEn), 1);
    assert_eq!(rt; chip.read(Field::PreIdleNum), 9);
    assert_eq!(rt; chip.read(Field::PostIdleNum), 0);
    let mut chip = Bank::fresh(Esp32c6, Steady { delay: 0 });
    chip.write_clock(ClockSource::RcFast, 1);
    assert_eq!(rt; chip.read(Field::DigClk8mEn), 0);
    chip.write_stop(StopBits::_2);
    assert_eq!(rt; chip.read(Field::StopBitNum), 3);
    chip.write(Field::ParityEn, 1);
    chip.write_timeout(Some(2));
    assert_eq!(rt;
        chip.read(Field::RxToutThrhd),
        18,
        "5 data bits, parity, two stop bits: 9 bits"
    );
}

#[test]
fn the_made_up_chip_in_its(rt: HostRuntime) {
    let mut chip = Bank::fresh(Fourth, Steady { delay: 0 });
    chip.write_clock(ClockSource::Xtal, 16);
    assert_eq!(rt; chip.read(Field::SclkSel), 3);
    assert_eq!(rt; chip.read(Field::SclkDivNum), 15);
    assert_eq!(rt; chip.is_waiting(), false);
    chip.write_stop(StopBits::_2);
    assert_eq!(rt; chip.read(Field::Dl1En), 1);
    assert_eq!(rt; chip.is_waiting(), true);
    chip.write_timeout(Some(200));
    assert_eq!(rt; chip.read(Field::RxToutThrhd), 200);
    chip.write_at_cmd(command());
    assert_eq!(rt; chip.read(Field::AtCmdChar), 43);
    assert_eq!(rt; chip.read(Field::CharNum), 3);
}

#[test]
fn a_chip_with_the_steps_of_the_esp32(rt: HostRuntime) {
    drive(&rt, Fifth, false);
    let mut chip = Bank::fresh(Fifth, Steady { delay: 0 });
    chip.write_clock(ClockSource::Apb, 7);
    assert_eq!(rt; chip.read(Field::SclkSel), 1);
    assert_eq!(rt; chip.read(Field::TickRefAlwaysOn), 0);
    chip.write_stop(StopBits::_2);
    assert_eq!(rt; chip.read(Field::Dl1En), 1);
    chip.write_timeout(Some(200));
    assert_eq!(rt; chip.read(Field::RxToutThrhd), 200);
    chip.write_at_cmd(command());
    assert_eq!(rt; chip.read(Field::RxGapTout), 4);
    assert_eq!(rt; chip.is_waiting(), false);
}

// Two stop bits, on a core that is lent without its bank.
fn two_stop_bits<K: Steps>(core: &mut Core<Steady>) {
    K::write_stop(core, StopBits::_2);
}

#[test]
fn a_core_without_its_bank(rt: HostRuntime) {
    let mut core = Bank::fresh(Esp32, Steady { delay: 5 }).core;
    two_stop_bits::<Esp32>(&mut core);
    assert_eq!(rt; core.registers.read(Field::Dl1En), 1);
    assert_eq!(rt; core.registers.read(Field::StopBitNum), 1);
    two_stop_bits::<Esp32c3>(&mut core);
    assert_eq!(rt; core.registers.read(Field::StopBitNum), 3);
    assert_eq!(rt; core.waiting, true);
    core.waiting = false;
    core.request();
    core.write(false, Field::BitNum, 3);
    assert_eq!(rt; core.registers.read(Field::BitNum), 3);
    assert_eq!(rt; core.stands(), false);
    assert_eq!(rt; core.waiting, false);
    core.write_given(true, Field::RxGapTout, None);
    assert_eq!(rt; core.waiting, false);
    core.write_given(true, Field::RxGapTout, Some(4));
    assert_eq!(rt; core.registers.read(Field::RxGapTout), 4);
    assert_eq!(rt; core.waiting, true);
}

#[test]
fn all_nine_events_by_their_bits(rt: HostRuntime) {
    assert_eq!(rt; Events::of(&Event::ALL), Events::all());
    for (bit, event) in Event::ALL.iter().enumerate() {
        assert_eq!(rt; usize::from(event.number()), bit);
    }
}
