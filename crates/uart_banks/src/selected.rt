// The four steps of the chips that state the same ways: clock source and stop bits by codes, the timeout in bits, a prescaler and a clock gate.
ghost use Rattle.std.specs.Prelude.{◌≡◌, ◌-◌, [], ◌∷◌};
ghost use Rattle.uart_banks.specs.Cores.{core_meaning};
ghost use Rattle.uart_banks.specs.Selected.{IsSelected};
ghost use Rattle.uart_chip.specs.Steps.{after_writes, source_code};
ghost use Rattle.uart_chip.specs.declared.field.Field.TheVariants.{DigClk8mEn, SclkSel, SclkDivNum, SclkDivA, SclkDivB};

use super::bank_core::Core;
use super::codes::{source_code, stop_code};
use super::gate::ShutGate;
use super::steps::Steps;
use uart_chip::at_cmd::AtCmdConfig;
use uart_chip::field::Field;
use uart_chip::kind::ChipKind;
use uart_chip::wire::Wire;
use uart_rate::config::{ClockSource, StopBits};

// A kind of chip that states these ways; what it states of a fast clock and of updates is its own. A chip of other ways implements `Steps` itself.
pub trait Selected: ChipKind {
    ghost stated: { IsSelected Self.ChipKind.PROPERTIES Self.BaudGenerator.P };
}

impl<K: Selected> Steps for K {
    fn write_clock<W: Wire>(core: &mut Core<W>, source: ClockSource, prescaler: u16) {
        if K::PROPERTIES.has_fast_clock && source == ClockSource::RcFast {
            core.write_fast_clock::<K>(prescaler);
        } else {
            core.write_selected_clock::<K>(source, prescaler);
        }
    }

    fn write_stop<W: Wire>(core: &mut Core<W>, stop: StopBits) {
        core.write_on::<K>(Field::StopBitNum, stop_code(stop));
    }

    fn write_timeout<W: Wire>(core: &mut Core<W>, timeout: Option<u8>) {
        match timeout {
            Some(symbols) => {
                // as far as 32 bits hold them
                let bits = u64::from(symbols) * core.registers.symbol_length();
                core.write_on::<K>(Field::RxToutThrhd, (bits % 4_294_967_296) as u32);
                core.write_on::<K>(Field::RxToutEn, 1);
            }
            None => core.write_on::<K>(Field::RxToutEn, 0),
        }
    }

    fn write_at_cmd<W: Wire>(core: &mut Core<W>, config: AtCmdConfig) {
        {
            let guard = ShutGate::new(&mut core.registers.sclk_en);
            guard.write_at_cmd(&mut core.registers.values, config);
        }
        core.standing = None;
        core.waiting |= K::PROPERTIES.has_update;
    }
}

impl<W: Wire> Core<W> {
    // Writes the source's code, and the prescaler without a fraction.
    fn write_selected_clock<K: ChipKind>(&mut self, source: ClockSource, prescaler: u16)
        ensures { core_meaning W.Wire self.new ≡ after_writes K.ChipKind.PROPERTIES.has_update ((SclkSel, source_code source) ∷ (SclkDivNum, prescaler - 1) ∷ (SclkDivA, 0) ∷ (SclkDivB, 0) ∷ []) (core_meaning W.Wire self.old) }
    {
        self.write_on::<K>(Field::SclkSel, source_code(source));
        self.write_on::<K>(Field::SclkDivNum, u32::from(prescaler).saturating_sub(1));
        self.write_on::<K>(Field::SclkDivA, 0);
        self.write_on::<K>(Field::SclkDivB, 0);
    }

    // Turns the fast clock on, and writes it as the source, and the prescaler.
    fn write_fast_clock<K: ChipKind>(&mut self, prescaler: u16)
        ensures { core_meaning W.Wire self.new ≡ after_writes K.ChipKind.PROPERTIES.has_update ((DigClk8mEn, 1) ∷ (SclkSel, 2) ∷ (SclkDivNum, prescaler - 1) ∷ (SclkDivA, 0) ∷ (SclkDivB, 0) ∷ []) (core_meaning W.Wire self.old) }
    {
        self.write_on::<K>(Field::DigClk8mEn, 1);
        self.write_selected_clock::<K>(ClockSource::RcFast, prescaler);
    }
}
