// The at-command fields, written while the clock gate is shut. A rule of the project has the guard borrow the plain gate field, so the writes go through it and not by the core's own `write`. That the gate is shut is asked each time: at the guard's end it is open, so the guard has no invariant that says it.
ghost use Rattle.std.specs.Prelude.{◌≡◌, ◌≢◌, false, [], ◌∷◌};
ghost use Rattle.uart_chip.specs.Fields.{index_of};
ghost use Rattle.uart_chip.specs.Steps.{given, at_cmd_writes};
ghost use Rattle.uart_banks.specs.Gates.{Puts};
ghost use Rattle.uart_chip.specs.declared.field.Field.TheVariants.{SclkEn};

use super::gate::ShutGate;
use uart_chip::at_cmd::AtCmdConfig;
use uart_chip::field::Field;

impl ShutGate<'_> {
    // Gives a field beside the gate a value; the gate has to be shut.
    fn write(&self, values: &mut [u32; 36], field: Field, value: u32)
        requires shut { self.now.gate.now ≡ 0 }
        requires other { index_of field ≢ index_of SclkEn }
        ensures { Puts ((field, value) ∷ []) values.old values.new }
    {
        values[field.index()] = value;
    }

    // The same, if a value is given.
    fn write_given(&self, values: &mut [u32; 36], field: Field, value: Option<u16>)
        requires shut { self.now.gate.now ≡ 0 }
        requires other { index_of field ≢ index_of SclkEn }
        ensures { Puts (given field value) values.old values.new }
    {
        if let Some(value) = value {
            self.write(values, field, u32::from(value));
        }
    }

    // Writes what makes an AT command; the gate has to be shut.
    pub(crate) fn write_at_cmd(&self, values: &mut [u32; 36], config: AtCmdConfig)
        requires { self.now.gate.now ≡ 0 }
        ensures { Puts (at_cmd_writes false config) values.old values.new }
    {
        self.write(values, Field::AtCmdChar, u32::from(config.cmd_char));
        self.write(values, Field::CharNum, u32::from(config.char_num));
        self.write_given(values, Field::PreIdleNum, config.pre_idle_count);
        self.write_given(values, Field::PostIdleNum, config.post_idle_count);
        self.write_given(values, Field::RxGapTout, config.gap_timeout);
    }
}
