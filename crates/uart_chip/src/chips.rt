// What three chips state about themselves.
ghost use Rattle.uart_chip.specs.Chips.{esp32_properties, esp32c3_properties, esp32c6_properties};

use super::kind::ChipKind;
use super::properties::{Properties, SourceStyle, StopRule, TimeoutRule};
use uart_rate::esp32::Esp32;
use uart_rate::esp32c3::Esp32c3;
use uart_rate::esp32c6::Esp32c6;

impl ChipKind for Esp32 {
    ghost PROPERTIES = { esp32_properties };

    const PROPERTIES: Properties = Properties {
        source_style: SourceStyle::Tick,
        stop_rule: StopRule::ExtraStop,
        timeout_rule: TimeoutRule::Symbols,
        has_fast_clock: false,
        has_gate: false,
        has_update: false,
        updates_framing: false,
    };
}

impl ChipKind for Esp32c3 {
    ghost PROPERTIES = { esp32c3_properties };

    const PROPERTIES: Properties = Properties {
        source_style: SourceStyle::Select,
        stop_rule: StopRule::Code,
        timeout_rule: TimeoutRule::Bits,
        has_fast_clock: true,
        has_gate: true,
        has_update: true,
        updates_framing: false,
    };
}

impl ChipKind for Esp32c6 {
    ghost PROPERTIES = { esp32c6_properties };

    const PROPERTIES: Properties = Properties {
        source_style: SourceStyle::Select,
        stop_rule: StopRule::Code,
        timeout_rule: TimeoutRule::Bits,
        has_fast_clock: false,
        has_gate: true,
        has_update: true,
        updates_framing: true,
    };
}
