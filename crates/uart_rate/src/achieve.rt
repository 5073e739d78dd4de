// Which rate the head gets, and whether it is near enough to the one that was asked for.
ghost use Rattle.std.specs.Prelude.{◌≡◌, ℕ, ◌+◌, ◌-◌, ◌*◌, ◌^◌, ◌<◌, ◌≤◌, Ok, MatchResult};
ghost use Rattle.uart_rate.specs.Achieving.{Gets, Runs, TooFast};
ghost use Rattle.uart_rate.specs.Judging.{Judges, IsBaudInRange};
ghost use Rattle.uart_rate.specs.Rates.{RateLaw, HeadRate, WholePart, sixteenths_of};
ghost use Rattle.uart_rate.specs.Stated.{limits};
ghost use Rattle.uart_rate.specs.declared.refusal.Refusal.TheVariants.{BaudrateNotAchievable};

use super::achieved::Achieved;
use super::clocks::Clocks;
use super::config::{BaudrateTolerance, Config};
use super::divider::Divider;
use super::generator::BaudGenerator;
use super::judge::judge;
use super::refusal::Refusal;
use super::request::Request;

// A rate further above the baud rate than the tolerance allows is refused. Clock and baud rate may be any numbers here, so they are no `Request`.
pub fn judge_tolerance(
    tolerance: BaudrateTolerance,
    clk: u32,
    baud: u32,
    divider: Divider,
) -> Result<(), Refusal>
    ensures { MatchResult result (λ _. TooFast tolerance clk baud divider → ⊥) (λ e. (e ≡ BaudrateNotAchievable) × TooFast tolerance clk baud divider) }
{
    let percent = match tolerance {
        BaudrateTolerance::Closest => return Ok(()),
        BaudrateTolerance::Exact => 1,
        BaudrateTolerance::ErrorPercent(n) => n,
    };
    if divider.exceeds(percent, clk, baud) {
        return Err(Refusal::BaudrateNotAchievable);
    }
    Ok(())
}

// What the head gets from a divider that obeys the rate law.
fn run(q: u32, request: &Request, divider: Divider) -> Achieved
    requires range { IsBaudInRange request.now.baud }
    requires law { RateLaw q request.now.clk request.now.baud divider.prescaler (sixteenths_of divider) }
    ensures { Runs request.now.clk request.now.baud divider result }
{
    let rate = divider.rate(request.clk);
    let excess = request.excess(divider);
    Achieved {
        clk: request.clk,
        divider,
        rate: rate as u32,
        excess: excess as u32,
    }
}

// What the head gets from the divider of a configuration that was judged, if its rate is near enough. Apart from `achieve`, so that it can ask for the judgement.
fn settle<G: BaudGenerator>(
    config: &Config,
    clocks: &Clocks,
    divider: Divider,
) -> Result<Achieved, Refusal>
    requires { Judges (limits G.BaudGenerator) G.BaudGenerator.has config.now clocks.now (Ok divider) }
    ensures { Gets (limits G.BaudGenerator) G.BaudGenerator.has config.now clocks.now result }
{
    let clk = clocks.hertz(config.clock_source);
    let baud = config.baudrate;
    judge_tolerance(config.baudrate_tolerance, clk, baud, divider)?;
    Ok(run(G::Q, &Request { clk, baud }, divider))
}

// Which rate the head gets from a configuration, or why it gets none.
pub fn achieve<G: BaudGenerator>(config: &Config, clocks: &Clocks) -> Result<Achieved, Refusal>
    ensures { Gets (limits G.BaudGenerator) G.BaudGenerator.has config.now clocks.now result }
{
    let divider = judge::<G>(config, clocks)?;
    settle::<G>(config, clocks, divider)
}
