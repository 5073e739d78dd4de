// Making a bank.
ghost use Rattle.std.specs.Prelude.{◌≡◌};
ghost use Rattle.uart_banks.specs.Made.{Fresh};

use super::bank::Bank;
use super::bank_core::Core;
use uart_chip::events::Events;
use uart_chip::registers::Registers;

impl<K, W> Bank<K, W> {
    // A fresh bank: the clock gate is open, and all else is 0.
    pub fn fresh(kind: K, wire: W) -> Bank<K, W>
        ensures { Fresh wire result.core }
    {
        let registers = Registers {
            sclk_en: 1,
            values: [0; 36],
        };
        let core = Core {
            wire,
            raw: Events::none(),
            enabled: Events::none(),
            count: 0,
            registers,
            waiting: false,
            standing: None,
        };
        Bank { kind, core }
    }

    // A bank in any state.
    pub fn in_state(kind: K, core: Core<W>) -> Bank<K, W>
        ensures { result.core ≡ core }
    {
        Bank { kind, core }
    }
}
