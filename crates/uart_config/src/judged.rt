// A configuration that passed the tests before anything is written.
ghost use Rattle.std.specs.Prelude.{MatchResult, Err};
ghost use Rattle.uart_config.specs.Judging.{IsJudged};
ghost use Rattle.uart_rate.specs.Judging.{Judges};
ghost use Rattle.uart_rate.specs.Stated.{limits};

use uart_rate::clocks::Clocks;
use uart_rate::config::Config;
use uart_rate::divider::Divider;
use uart_rate::generator::BaudGenerator;
use uart_rate::judge::judge;
use uart_rate::refusal::Refusal;

// The configuration, the hertz of its clock source, and the divider that it was given.
#[derive(Clone, Copy, Debug)]
pub(crate) struct Judged<'a> {
    pub(crate) config: &'a Config,
    pub(crate) clk: u32,
    pub(crate) divider: Divider,
}

impl<'a> Judged<'a> {
    // Judges a configuration by a record of clocks.
    pub(crate) fn new<G: BaudGenerator>(
        config: &'a Config,
        clocks: &Clocks,
    ) -> Result<Judged<'a>, Refusal>
        ensures { MatchResult result (IsJudged (limits G.BaudGenerator) G.BaudGenerator.has config.now clocks.now) (λ e. Judges (limits G.BaudGenerator) G.BaudGenerator.has config.now clocks.now (Err e)) }
    {
        let divider = judge::<G>(config, clocks)?;
        let clk = clocks.hertz(config.clock_source);
        Ok(Judged {
            config,
            clk,
            divider,
        })
    }
}
