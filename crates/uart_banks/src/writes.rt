// Writes of a core's and a bank's fields, by what a kind of chip says of updates.
ghost use Rattle.std.specs.Prelude.{◌≡◌, [], ◌∷◌};
ghost use Rattle.uart_banks.specs.Banks.{MakesWrites};
ghost use Rattle.uart_banks.specs.Cores.{core_meaning};
ghost use Rattle.uart_chip.specs.Steps.{after_writes, given};

use super::bank::Bank;
use super::bank_core::Core;
use uart_chip::field::Field;
use uart_chip::kind::ChipKind;
use uart_chip::wire::Wire;

impl<W: Wire> Core<W> {
    // Gives a field a value, on a chip of the kind `K`.
    pub fn write_on<K: ChipKind>(&mut self, field: Field, value: u32)
        ensures { core_meaning W.Wire self.new ≡ after_writes K.ChipKind.PROPERTIES.has_update ((field, value) ∷ []) (core_meaning W.Wire self.old) }
    {
        self.write(K::PROPERTIES.has_update, field, value);
    }

    // Gives a field a value, if one is given, on a chip of the kind `K`.
    pub fn write_given_on<K: ChipKind>(&mut self, field: Field, value: Option<u16>)
        ensures { core_meaning W.Wire self.new ≡ after_writes K.ChipKind.PROPERTIES.has_update (given field value) (core_meaning W.Wire self.old) }
    {
        self.write_given(K::PROPERTIES.has_update, field, value);
    }
}

impl<K: ChipKind, W: Wire> Bank<K, W> {
    // Gives a field a value. A line field cancels the update that stands; on a chip with an update it then waits for one.
    pub fn write(&mut self, field: Field, value: u32)
        ensures { MakesWrites W.Wire K.ChipKind.PROPERTIES.has_update ((field, value) ∷ []) self.old self.new }
    {
        self.core.write_on::<K>(field, value);
    }

    // Gives a field a value, if one is given.
    pub fn write_given(&mut self, field: Field, value: Option<u16>)
        ensures { MakesWrites W.Wire K.ChipKind.PROPERTIES.has_update (given field value) self.old self.new }
    {
        self.core.write_given_on::<K>(field, value);
    }
}
