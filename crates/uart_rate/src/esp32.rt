// The ESP32: no prescaler, and a wide divider.
ghost use Rattle.std.specs.Prelude.{◌≡◌};
ghost use Rattle.uart_rate.specs.Generators.{esp32_limits, esp32_has, esp32_source};
ghost use Rattle.std.proofs.Common.{rules};

use super::config::ClockSource;
use super::generator::BaudGenerator;

#[derive(Clone, Copy, Debug, PartialEq, Eq, Hash)]
pub struct Esp32;

impl BaudGenerator for Esp32 {
    const Q: u32 = 268_435_456;

    const P: u32 = 1;

    const I: u32 = 1_048_575;

    const DEFAULT_SOURCE: ClockSource = ClockSource::Apb;

    ghost Q = { esp32_limits.q };

    ghost P = { esp32_limits.p };

    ghost I = { esp32_limits.i };

    ghost DEFAULT_SOURCE = { esp32_source };

    ghost has = { esp32_has };

    ghost ranges = { Prim.search rules };

    ghost present = { Prim.search rules };

    fn has_source(source: ClockSource) -> bool {
        matches!(source, ClockSource::RefTick | ClockSource::Apb)
    }
}
