// A made-up chip: an ESP32 whose clock source is a code. Of its four steps it writes the clock itself; in the others, where it states the same, it lends its core to the ESP32's.
ghost use Rattle.bank_tests.specs.Fifth.{fifth_properties};
ghost use Rattle.std.proofs.Common.{rules};
ghost use Rattle.uart_rate.specs.Generators.{esp32_limits, esp32_has, esp32_source};

use uart_banks::bank_core::Core;
use uart_banks::codes::source_code;
use uart_banks::steps::Steps;
use uart_chip::at_cmd::AtCmdConfig;
use uart_chip::field::Field;
use uart_chip::kind::ChipKind;
use uart_chip::properties::{Properties, SourceStyle, StopRule, TimeoutRule};
use uart_chip::wire::Wire;
use uart_rate::config::{ClockSource, StopBits};
use uart_rate::esp32::Esp32;
use uart_rate::generator::BaudGenerator;

#[derive(Clone, Copy)]
pub struct Fifth;

impl BaudGenerator for Fifth {
    const Q: u32 = 268_435_456;

    const P: u32 = 1;

    const I: u32 = 1_048_575;

    const DEFAULT_SOURCE: ClockSource = ClockSource::Apb;

    ghost Q = { esp32_limits.q };

    ghost P = { esp32_limits.p };

    ghost I = { esp32_limits.i };

    ghost DEFAULT_SOURCE = { esp32_source };

    ghost has = { esp32_has };

    ghost ranges = { Prim.search rules };

    ghost present = { Prim.search rules };

    fn has_source(source: ClockSource) -> bool {
        Esp32::has_source(source)
    }
}

impl ChipKind for Fifth {
    ghost PROPERTIES = { fifth_properties };

    const PROPERTIES: Properties = Properties {
        source_style: SourceStyle::Select,
        stop_rule: StopRule::ExtraStop,
        timeout_rule: TimeoutRule::Symbols,
        has_fast_clock: false,
        has_gate: false,
        has_update: false,
        updates_framing: false,
    };
}

impl Steps for Fifth {
    fn write_clock<W: Wire>(core: &mut Core<W>, source: ClockSource, _prescaler: u16) {
        core.write_on::<Self>(Field::SclkSel, source_code(source));
    }

    fn write_stop<W: Wire>(core: &mut Core<W>, stop: StopBits) {
        Esp32::write_stop(core, stop);
    }

    fn write_timeout<W: Wire>(core: &mut Core<W>, timeout: Option<u8>) {
        Esp32::write_timeout(core, timeout);
    }

    fn write_at_cmd<W: Wire>(core: &mut Core<W>, config: AtCmdConfig) {
        Esp32::write_at_cmd(core, config);
    }
}
