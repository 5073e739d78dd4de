// A configuration's writing, all five steps.
ghost use Rattle.std.specs.Prelude.{◌≡◌};
ghost use Rattle.uart_config.specs.Applying.{apply_rows, Applies};
ghost use Rattle.uart_config.specs.Runs.{Ran};
ghost use Rattle.uart_config.specs.Uarts.{ChangesRest, rest_of};
ghost use Rattle.uart_rate.specs.Stated.{limits};

use super::fault::Fault;
use super::fifo::Fifo;
use super::judged::Judged;
use super::step::Step;
use super::uart::Uart;
use uart_chip::chip::Chip;
use uart_chip::kind::ChipKind;
use uart_chip::source::EventSource;
use uart_rate::clocks::Clocks;
use uart_rate::config::Config;
use uart_rate::generator::BaudGenerator;

impl<C: Chip> Uart<C> {
    // The five steps of a configuration that was judged.
    pub(crate) fn configure(&mut self, judged: &Judged) -> Result<(), Fault>
        requires { self.old.reads ≡ 0 }
        ensures { Ran C.EventSource C.Kind.ChipKind.PROPERTIES (apply_rows C.Kind.ChipKind.PROPERTIES C.Kind.BaudGenerator.P (rest_of C.EventSource self.old).fields judged.now.config.now judged.now.clk judged.now.divider) self.old result self.new }
    {
        let config = judged.config;
        self.change_baud(judged)?;
        self.change_framing(config)?;
        self.configure_rx(&config.rx)?;
        self.reset(Fifo::Rx, Step::RxReset)?;
        self.configure_tx(&config.tx)
    }

    // Puts a configuration in force, as far as it goes.
    pub fn apply_config(&mut self, config: &Config, clocks: &Clocks) -> Result<u32, Fault>
        ensures { ChangesRest C.EventSource (Applies (limits C.Kind.BaudGenerator) C.Kind.BaudGenerator.has C.Kind.ChipKind.PROPERTIES self.old.budget config.now clocks.now result) self.old self.new }
    {
        let judged = Judged::new::<C::Kind>(config, clocks)?;
        self.reads = 0;
        self.configure(&judged)?;
        Ok(self.reads)
    }
}
