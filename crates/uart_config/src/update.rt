// An update: a request, and then polls until it is done or the budget is used up.
ghost use Rattle.std.specs.Prelude.{[], ◌∷◌, None};
ghost use Rattle.uart_config.specs.Rows.{update_row};
ghost use Rattle.uart_config.specs.Runs.{HasRoom, Ran};

use super::fault::Fault;
use super::step::Step;
use super::uart::Uart;
use uart_chip::chip::Chip;
use uart_chip::kind::ChipKind;
use uart_chip::source::EventSource;

impl<C: Chip> Uart<C> {
    // Lets the line fields take effect.
    pub(crate) fn update(&mut self, step: Step) -> Result<(), Fault>
        requires { HasRoom (update_row step None [] ∷ []) self.old }
        ensures { Ran C.EventSource C.Kind.ChipKind.PROPERTIES (update_row step None [] ∷ []) self.old result self.new }
    {
        if !C::Kind::PROPERTIES.has_update {
            return Ok(());
        }
        self.chip.request();
        for _ in 0..self.budget {
            self.reads += 1;
            if !self.chip.stands() {
                return Ok(());
            }
        }
        Err(Fault::timed_out(step, self.reads))
    }
}
