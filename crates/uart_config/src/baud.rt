// Step 1 of a configuration: clock source, prescaler and divider, and then the tolerance.
ghost use Rattle.std.specs.Prelude.{[], ◌∷◌, ◌++◌};
ghost use Rattle.uart_chip.specs.Meanings.{Wrote};
ghost use Rattle.uart_chip.specs.Steps.{clock_writes};
ghost use Rattle.uart_config.specs.Rows.{divider_writes, tolerance_row, divider_rows};
ghost use Rattle.uart_config.specs.Runs.{HasRoom, Ran};

use super::fault::Fault;
use super::judged::Judged;
use super::step::Step;
use super::uart::Uart;
use uart_chip::chip::Chip;
use uart_chip::field::Field;
use uart_chip::kind::ChipKind;
use uart_chip::source::EventSource;
use uart_rate::achieve::judge_tolerance;
use uart_rate::generator::BaudGenerator;

// Writes the clock source, the prescaler and the divider.
fn write_rate<C: Chip>(chip: &mut C, judged: &Judged)
    ensures { Wrote C.EventSource C.Kind.ChipKind.PROPERTIES.has_update (clock_writes C.Kind.ChipKind.PROPERTIES C.Kind.BaudGenerator.P judged.now.config.now.clock_source judged.now.divider.prescaler ++ divider_writes judged.now.divider) chip.old chip.new }
{
    let divider = judged.divider;
    chip.write_clock(judged.config.clock_source, divider.prescaler);
    chip.write(Field::Clkdiv, divider.integer);
    chip.write(Field::Frag, u32::from(divider.fraction));
}

impl<C: Chip> Uart<C> {
    // A rate too far above the one asked for is refused.
    fn verify_baudrate(&self, judged: &Judged) -> Result<(), Fault>
        ensures { Ran C.EventSource C.Kind.ChipKind.PROPERTIES (tolerance_row judged.now.config.now judged.now.clk judged.now.divider ∷ []) self.now result self.now }
    {
        let Judged {
            config,
            clk,
            divider,
        } = *judged;
        let reads = self.reads;
        judge_tolerance(config.baudrate_tolerance, clk, config.baudrate, divider).map_err(
            |refusal| Fault::refused(refusal, reads),
        )
    }

    // The divider, an update, and the test of the tolerance.
    pub(crate) fn change_baud(&mut self, judged: &Judged) -> Result<(), Fault>
        requires { HasRoom (divider_rows C.Kind.ChipKind.PROPERTIES C.Kind.BaudGenerator.P judged.now.config.now judged.now.clk judged.now.divider) self.old }
        ensures { Ran C.EventSource C.Kind.ChipKind.PROPERTIES (divider_rows C.Kind.ChipKind.PROPERTIES C.Kind.BaudGenerator.P judged.now.config.now judged.now.clk judged.now.divider) self.old result self.new }
    {
        write_rate(&mut self.chip, judged);
        self.update(Step::Divider)?;
        self.verify_baudrate(judged)
    }
}
