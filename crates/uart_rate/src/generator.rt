// A baud rate generator, by what its chip states about it.
ghost use Rattle.std.specs.Prelude.{◌≡◌, ℕ, Bool, true};
ghost use Rattle.uart_rate.specs.Limits.{InRange};
ghost use Rattle.uart_rate.specs.declared.config.ClockSource.{ClockSource};

use super::config::ClockSource;

pub trait BaudGenerator {
    // the largest clk / (p · baud); the prescaler p is raised until it holds
    const Q: u32;

    // the largest prescaler; 1 where the chip has none
    const P: u32;

    // the largest integer part of the divider
    const I: u32;

    // the clock source where a caller names none
    const DEFAULT_SOURCE: ClockSource;

    // the constants again, for clauses
    ghost Q: { ℕ };

    ghost P: { ℕ };

    ghost I: { ℕ };

    ghost DEFAULT_SOURCE: { ClockSource };

    // which clock sources the chip has
    ghost has: { ClockSource → Bool };

    fn has_source(source: ClockSource) -> bool
        ensures { result ≡ has source };

    ghost ranges: { InRange (record { q = Q; p = P; i = I }) };

    // the chip has its default source
    ghost present: { has DEFAULT_SOURCE ≡ true };
}
