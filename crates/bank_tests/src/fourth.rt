// A made-up chip, unlike the three: other numbers, other sources, an update and the extra stop bit together. A rule of the project has each chip give its own four steps, and the ESP32's are those of a chip without updates, so what it has in common with the ESP32 stands here again.
ghost use Rattle.bank_tests.specs.Fourth.{fourth_limits, fourth_has, fourth_source, fourth_properties};
ghost use Rattle.std.proofs.Common.{rules};

use uart_banks::bank_core::Core;
use uart_banks::codes::source_code;
use uart_banks::steps::Steps;
use uart_chip::at_cmd::AtCmdConfig;
use uart_chip::field::Field;
use uart_chip::kind::ChipKind;
use uart_chip::properties::{Properties, SourceStyle, StopRule, TimeoutRule};
use uart_chip::wire::Wire;
use uart_rate::config::{ClockSource, StopBits};
use uart_rate::generator::BaudGenerator;

#[derive(Clone, Copy)]
pub struct Fourth;

impl BaudGenerator for Fourth {
    const Q: u32 = 1_000;

    const P: u32 = 16;

    const I: u32 = 63;

    const DEFAULT_SOURCE: ClockSource = ClockSource::Xtal;

    ghost Q = { fourth_limits.q };

    ghost P = { fourth_limits.p };

    ghost I = { fourth_limits.i };

    ghost DEFAULT_SOURCE = { fourth_source };

    ghost has = { fourth_has };

    ghost ranges = { Prim.search rules };

    ghost present = { Prim.search rules };

    fn has_source(source: ClockSource) -> bool {
        matches!(source, ClockSource::Xtal | ClockSource::RefTick)
    }
}

impl ChipKind for Fourth {
    ghost PROPERTIES = { fourth_properties };

    const PROPERTIES: Properties = Properties {
        source_style: SourceStyle::Select,
        stop_rule: StopRule::ExtraStop,
        timeout_rule: TimeoutRule::Symbols,
        has_fast_clock: false,
        has_gate: false,
        has_update: true,
        updates_framing: true,
    };
}

impl Steps for Fourth {
    fn write_clock<W: Wire>(core: &mut Core<W>, source: ClockSource, prescaler: u16) {
        core.write_on::<Self>(Field::SclkSel, source_code(source));
        core.write_on::<Self>(Field::SclkDivNum, u32::from(prescaler).saturating_sub(1));
        core.write_on::<Self>(Field::SclkDivA, 0);
        core.write_on::<Self>(Field::SclkDivB, 0);
    }

    fn write_stop<W: Wire>(core: &mut Core<W>, stop: StopBits) {
        if stop == StopBits::_2 {
            core.write_on::<Self>(Field::Dl1En, 1);
            core.write_on::<Self>(Field::StopBitNum, 1);
        }
    }

    fn write_timeout<W: Wire>(core: &mut Core<W>, timeout: Option<u8>) {
        match timeout {
            Some(symbols) => {
                core.write_on::<Self>(Field::RxToutThrhd, u32::from(symbols));
                core.write_on::<Self>(Field::RxToutEn, 1);
            }
            None => core.write_on::<Self>(Field::RxToutEn, 0),
        }
    }

    fn write_at_cmd<W: Wire>(core: &mut Core<W>, config: AtCmdConfig) {
        core.write_on::<Self>(Field::AtCmdChar, u32::from(config.cmd_char));
        core.write_on::<Self>(Field::CharNum, u32::from(config.char_num));
        core.write_given_on::<Self>(Field::PreIdleNum, config.pre_idle_count);
        core.write_given_on::<Self>(Field::PostIdleNum, config.post_idle_count);
        core.write_given_on::<Self>(Field::RxGapTout, config.gap_timeout);
    }
}
