// The length of a symbol, from the fields that say it.
ghost use Rattle.std.specs.Prelude.{◌≡◌, ℕ, ◌<◌, ◌≤◌};
ghost use Rattle.uart_chip.specs.Registers.{value_of};
ghost use Rattle.uart_chip.specs.Steps.{parity_length, stop_length, symbol_length};

use super::field::Field;
use super::registers::Registers;

impl Registers {
    // The stop bits that a symbol has.
    fn stop_length(&self) -> u64
        ensures value { result ≡ stop_length (value_of self.now) }
        ensures bound { result ≤ 2 }
    {
        if self.read(Field::Dl1En) == 0 && self.read(Field::StopBitNum) == 1 {
            1
        } else {
            2
        }
    }

    // The parity bits that a symbol has.
    fn parity_length(&self) -> u64
        ensures value { result ≡ parity_length (value_of self.now) }
        ensures bound { result ≤ 1 }
    {
        u64::from(self.read(Field::ParityEn) != 0)
    }

    // The length of a symbol in bits.
    pub fn symbol_length(&self) -> u64
        ensures value { result ≡ symbol_length (value_of self.now) }
        ensures bound { result < 4294967312 }
    {
        1 + (u64::from(self.read(Field::BitNum)) + 5) + self.parity_length() + self.stop_length()
    }
}
