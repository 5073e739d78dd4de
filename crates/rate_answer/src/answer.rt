// The answer to a query.
ghost use Rattle.std.specs.Prelude.{◌≡◌};
ghost use Rattle.rate_answer.specs.Answering.{limits_of, Answers};
ghost use Rattle.uart_rate.specs.Stated.{limits};

use rate_query::chip::ChipName;
use rate_query::query::Query;
use uart_rate::achieve::achieve;
use uart_rate::achieved::Achieved;
use uart_rate::clocks::Clocks;
use uart_rate::config::{BaudrateTolerance, Config};
use uart_rate::esp32::Esp32;
use uart_rate::esp32c3::Esp32c3;
use uart_rate::esp32c6::Esp32c6;
use uart_rate::generator::BaudGenerator;
use uart_rate::refusal::Refusal;

// The answer on the chip that the query names, whose every source runs at the query's clock.
fn answer_on<G: BaudGenerator>(query: &Query) -> Result<Achieved, Refusal>
    requires { limits_of query.now.chip ≡ limits G.BaudGenerator }
    ensures { Answers query.now result }
{
    let mut config = Config::from_source(G::DEFAULT_SOURCE);
    config.baudrate = query.baud;
    config.baudrate_tolerance = query.tolerance.unwrap_or(BaudrateTolerance::Closest);
    let clk = query.clk;
    let clocks = Clocks {
        apb_clock: clk,
        rc_fast_clock: clk,
        xtal_clock: clk,
        ref_tick: clk,
    };
    achieve::<G>(&config, &clocks)
}

// Which rate the head gets, or why it gets none. A query has its chip as a value and the rules have it as a type, so a `match` goes from one to the other; a table of functions would hold the same three instances, and would have to be searched.
pub fn answer(query: &Query) -> Result<Achieved, Refusal>
    ensures { Answers query.now result }
{
    match query.chip {
        ChipName::Esp32 => answer_on::<Esp32>(query),
        ChipName::Esp32c3 => answer_on::<Esp32c3>(query),
        ChipName::Esp32c6 => answer_on::<Esp32c6>(query),
    }
}
