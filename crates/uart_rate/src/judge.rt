// The tests that a configuration goes through before anything is written, in their order.
ghost use Rattle.std.specs.Prelude.{◌≡◌, ℕ, ◌+◌, ◌-◌, ◌*◌, ◌/◌, ◌%◌, ◌^◌, ◌<◌, ◌≤◌, true, false, MatchResult};
ghost use Rattle.uart_rate.specs.Clocks.{hertz_of};
ghost use Rattle.uart_rate.specs.Judging.{IsPercentInRange, IsPercentOutOfRange, IsBaudInRange, IsBaudOutOfRange, IsClockUsable, IsClockUnusable, Divides, IsOutOfBounds, Judges};
ghost use Rattle.uart_rate.specs.Stated.{limits};
ghost use Rattle.uart_rate.specs.declared.refusal.Refusal.TheVariants.{PercentOutOfRange, BaudrateNotSupported, ClockNotUsable, DividerOutOfRange};

use super::clocks::Clocks;
use super::config::{BaudrateTolerance, ClockSource, Config};
use super::divider::Divider;
use super::generator::BaudGenerator;
use super::refusal::Refusal;
use super::request::Request;

// A percent of 0 or above 100 is refused.
pub fn judge_percent(tolerance: BaudrateTolerance) -> Result<(), Refusal>
    ensures { MatchResult result (λ _. IsPercentInRange tolerance) (λ e. (e ≡ PercentOutOfRange) × IsPercentOutOfRange tolerance) }
{
    match tolerance {
        BaudrateTolerance::ErrorPercent(n) if n == 0 || n > 100 => Err(Refusal::PercentOutOfRange),
        _ => Ok(()),
    }
}

// A baud rate of 0 or above 5,000,000 is refused.
pub fn judge_baud(baud: u32) -> Result<(), Refusal>
    ensures { MatchResult result (λ _. IsBaudInRange baud) (λ e. (e ≡ BaudrateNotSupported) × IsBaudOutOfRange baud) }
{
    if baud == 0 || baud > 5_000_000 {
        return Err(Refusal::BaudrateNotSupported);
    }
    Ok(())
}

// A source that the chip lacks is refused, and so is one that stands still or runs at 268,435,456 hertz or more.
pub fn judge_clock<G: BaudGenerator>(source: ClockSource, clocks: &Clocks) -> Result<(), Refusal>
    ensures { MatchResult result (λ _. IsClockUsable (G.BaudGenerator.has source) (hertz_of clocks.now source)) (λ e. (e ≡ ClockNotUsable) × IsClockUnusable (G.BaudGenerator.has source) (hertz_of clocks.now source)) }
{
    let clk = clocks.hertz(source);
    if !G::has_source(source) || clk == 0 || clk >= 268_435_456 {
        return Err(Refusal::ClockNotUsable);
    }
    Ok(())
}

// The divider for a clock and a baud rate: the least prescaler, and under it the largest divider that is not too slow, if they fit the chip.
fn divide_clock<G: BaudGenerator>(request: &Request) -> Result<Divider, Refusal>
    ensures { MatchResult result (Divides (limits G.BaudGenerator) request.now.clk request.now.baud) (λ e. (e ≡ DividerOutOfRange) × IsOutOfBounds (limits G.BaudGenerator) request.now.clk request.now.baud) }
{
    let prescaler = request.least_prescaler(G::Q);
    if prescaler > u64::from(G::P) {
        return Err(Refusal::DividerOutOfRange);
    }
    let divisor = request.divisor(G::Q, prescaler);
    if divisor == 0 {
        return Err(Refusal::DividerOutOfRange);
    }
    let integer = divisor / 16;
    if integer > u64::from(G::I) {
        return Err(Refusal::DividerOutOfRange);
    }
    Ok(Divider {
        prescaler: prescaler as u16,
        integer: integer as u32,
        fraction: (divisor % 16) as u8,
    })
}

// The divider for a configuration that passed the other tests.
fn divide<G: BaudGenerator>(config: &Config, clocks: &Clocks) -> Result<Divider, Refusal>
    requires percent { IsPercentInRange config.now.baudrate_tolerance }
    requires baud { IsBaudInRange config.now.baudrate }
    requires clock { IsClockUsable (G.BaudGenerator.has config.now.clock_source) (hertz_of clocks.now config.now.clock_source) }
    ensures { Judges (limits G.BaudGenerator) G.BaudGenerator.has config.now clocks.now result }
{
    divide_clock::<G>(&Request {
        clk: clocks.hertz(config.clock_source),
        baud: config.baudrate,
    })
}

// The judgement on a configuration before anything is written: the first of the four tests that fails, or the divider.
pub fn judge<G: BaudGenerator>(config: &Config, clocks: &Clocks) -> Result<Divider, Refusal>
    ensures { Judges (limits G.BaudGenerator) G.BaudGenerator.has config.now clocks.now result }
{
    judge_percent(config.baudrate_tolerance)?;
    judge_baud(config.baudrate)?;
    judge_clock::<G>(config.clock_source, clocks)?;
    divide::<G>(config, clocks)
}
