// The ESP32-C3: a prescaler before the divider.
ghost use Rattle.std.specs.Prelude.{◌≡◌};
ghost use Rattle.uart_rate.specs.Generators.{prescaled_limits, prescaled_has, esp32c3_source};
ghost use Rattle.std.proofs.Common.{rules};

use super::config::ClockSource;
use super::generator::BaudGenerator;
use super::prescaled::has_prescaled_source;

#[derive(Clone, Copy, Debug, PartialEq, Eq, Hash)]
pub struct Esp32c3;

impl BaudGenerator for Esp32c3 {
    const Q: u32 = 4_094;

    const P: u32 = 256;

    const I: u32 = 4_095;

    const DEFAULT_SOURCE: ClockSource = ClockSource::Apb;

    ghost Q = { prescaled_limits.q };

    ghost P = { prescaled_limits.p };

    ghost I = { prescaled_limits.i };

    ghost DEFAULT_SOURCE = { esp32c3_source };

    ghost has = { prescaled_has };

    ghost ranges = { Prim.search rules };

    ghost present = { Prim.search rules };

    fn has_source(source: ClockSource) -> bool {
        has_prescaled_source(source)
    }
}
