// Resets of the two FIFOs: on, an update, off, an update.
ghost use Rattle.std.specs.Prelude.{◌≡◌, [], ◌∷◌, IfOk, None};
ghost use Rattle.uart_config.specs.Rows.{reset_field, on_row, update_row, reset_rows};
ghost use Rattle.uart_config.specs.Runs.{HasRoom, Ran};
ghost use Rattle.uart_config.specs.Uarts.{rest_of};

use super::fault::Fault;
use super::fifo::{Fifo, HeldReset};
use super::step::Step;
use super::uart::Uart;
use uart_chip::chip::Chip;
use uart_chip::kind::ChipKind;
use uart_chip::source::EventSource;

impl<C: Chip> Uart<C> {
    // Holds a FIFO in reset. If the update times out the FIFO is let go again.
    fn hold_reset(&mut self, fifo: Fifo, step: Step) -> Result<HeldReset, Fault>
        requires { HasRoom (on_row fifo step ∷ []) self.old }
        ensures ran { Ran C.EventSource C.Kind.ChipKind.PROPERTIES (on_row fifo step ∷ []) self.old result self.new }
        ensures held { IfOk result (λ h. (h.fifo ≡ fifo) × (h.step ≡ step)) }
        ensures on { IfOk result (λ _. (rest_of C.EventSource self.new).fields (reset_field fifo) ≡ 1) }
    {
        self.chip.write(fifo.reset_field(), 1);
        if let Err(fault) = self.update(step) {
            self.chip.write(fifo.reset_field(), 0);
            return Err(fault);
        }
        let on = self.chip.read(fifo.reset_field());
        Ok(HeldReset { fifo, step, on })
    }

    // Lets a FIFO go that is held in reset: its reset field is 1.
    fn release_reset(&mut self, held: HeldReset) -> Result<(), Fault>
        requires room { HasRoom (update_row held.step None ((reset_field held.fifo, 0) ∷ []) ∷ []) self.old }
        requires on { (rest_of C.EventSource self.old).fields (reset_field held.fifo) ≡ 1 }
        ensures { Ran C.EventSource C.Kind.ChipKind.PROPERTIES (update_row held.step None ((reset_field held.fifo, 0) ∷ []) ∷ []) self.old result self.new }
    {
        let HeldReset { fifo, step, on: _ } = held;
        self.chip.write(fifo.reset_field(), 0);
        self.update(step)
    }

    // Resets a FIFO, in a step.
    pub(crate) fn reset(&mut self, fifo: Fifo, step: Step) -> Result<(), Fault>
        requires { HasRoom (reset_rows fifo step) self.old }
        ensures { Ran C.EventSource C.Kind.ChipKind.PROPERTIES (reset_rows fifo step) self.old result self.new }
    {
        let held = self.hold_reset(fifo, step)?;
        self.release_reset(held)
    }
}
