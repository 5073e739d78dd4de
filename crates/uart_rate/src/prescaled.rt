// What the chips with a prescaler have in common.
ghost use Rattle.std.specs.Prelude.{◌≡◌};
ghost use Rattle.uart_rate.specs.Generators.{prescaled_has};

use super::config::ClockSource;

// Whether such a chip has a clock source.
pub(crate) fn has_prescaled_source(source: ClockSource) -> bool
    ensures { result ≡ prescaled_has source }
{
    matches!(
        source,
        ClockSource::Apb | ClockSource::RcFast | ClockSource::Xtal
    )
}
