// An init: events cleared and disabled, a configuration, both resets again, idle time and error mask, and all events cleared.
ghost use Rattle.std.specs.Prelude.{◌≡◌, [], ◌∷◌, None, Ok};
ghost use Rattle.uart_chip.specs.Meanings.{meaning};
ghost use Rattle.uart_config.specs.Applying.{first_cleared, prepared, init_rows, Inits};
ghost use Rattle.uart_config.specs.Rows.{plain_row, idle_writes};
ghost use Rattle.uart_config.specs.Runs.{Ran};
ghost use Rattle.uart_config.specs.Uarts.{rest_of};
ghost use Rattle.uart_config.specs.declared.step.Step.TheVariants.{Transmit};
ghost use Rattle.uart_rate.specs.Stated.{limits};

use super::fault::Fault;
use super::fifo::Fifo;
use super::judged::Judged;
use super::step::Step;
use super::uart::Uart;
use uart_chip::chip::Chip;
use uart_chip::events::Events;
use uart_chip::field::Field;
use uart_chip::kind::ChipKind;
use uart_chip::source::EventSource;
use uart_rate::clocks::Clocks;
use uart_rate::config::Config;
use uart_rate::generator::BaudGenerator;

// The events that an init clears first: all but glitch, framing and parity errors.
fn first_cleared() -> Events
    ensures { result ≡ first_cleared }
{
    Events {
        glitch_detected: false,
        frame_error: false,
        parity_error: false,
        ..Events::all()
    }
}

// Clears the first events and disables all.
fn disable_interrupts<C: Chip>(chip: &mut C)
    ensures { meaning C.EventSource chip.new ≡ prepared (meaning C.EventSource chip.old) }
{
    chip.clear(first_cleared());
    chip.disable(Events::all());
}

impl<C: Chip> Uart<C> {
    // No idle time between transfers, and no faulty bytes in the receive FIFO.
    fn write_idle_and_mask(&mut self)
        ensures { Ran {A = Unit {0}} C.EventSource C.Kind.ChipKind.PROPERTIES (plain_row Transmit None idle_writes ∷ []) self.old (Ok tt) self.new }
    {
        self.chip.write(Field::TxIdleNum, 0);
        self.chip.write(Field::ErrWrMask, 1);
    }

    // The writing of an init.
    fn start(&mut self, judged: &Judged) -> Result<(), Fault>
        requires { self.old.reads ≡ 0 }
        ensures { Ran C.EventSource C.Kind.ChipKind.PROPERTIES (init_rows C.Kind.ChipKind.PROPERTIES C.Kind.BaudGenerator.P (rest_of C.EventSource self.old).fields judged.now.config.now judged.now.clk judged.now.divider) self.old result self.new }
    {
        self.configure(judged)?;
        self.reset(Fifo::Rx, Step::RxReset)?;
        self.reset(Fifo::Tx, Step::Transmit)?;
        self.write_idle_and_mask();
        Ok(())
    }

    // Brings the UART up with a configuration.
    pub fn init(&mut self, config: &Config, clocks: &Clocks) -> Result<u32, Fault>
        ensures inits { Inits (limits C.Kind.BaudGenerator) C.Kind.BaudGenerator.has C.Kind.ChipKind.PROPERTIES self.old.budget config.now clocks.now result (meaning C.EventSource self.old.chip) (meaning C.EventSource self.new.chip) }
        ensures budget { self.new.budget ≡ self.old.budget }
    {
        disable_interrupts(&mut self.chip);
        let judged = Judged::new::<C::Kind>(config, clocks)?;
        self.reads = 0;
        self.start(&judged)?;
        self.chip.clear(Events::all());
        Ok(self.reads)
    }
}
