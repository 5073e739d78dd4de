// Reading and writing a register file, field by field.
ghost use Rattle.std.specs.Prelude.{◌≡◌, ℕ};
ghost use Rattle.uart_chip.specs.Fields.{put};
ghost use Rattle.uart_chip.specs.Registers.{value_of};

use super::field::Field;
use super::registers::Registers;

impl Registers {
    // The value of a field.
    pub fn read(&self, field: Field) -> u32
        ensures { result ≡ value_of self.now field }
    {
        match field {
            Field::SclkEn => self.sclk_en,
            _ => self.values[field.index()],
        }
    }

    // Gives a field a value, and leaves all others.
    pub fn write(&mut self, field: Field, value: u32)
        ensures { value_of self.new ≡ put field value (value_of self.old) }
    {
        match field {
            Field::SclkEn => self.sclk_en = value,
            _ => self.values[field.index()] = value,
        }
    }
}
