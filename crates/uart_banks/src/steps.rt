// The four steps that each chip writes in its own way, on a core that is lent to it.
ghost use Rattle.std.specs.Prelude.{◌≡◌};
ghost use Rattle.uart_banks.specs.Cores.{core_meaning};
ghost use Rattle.uart_chip.specs.Steps.{after_writes, clock_writes, stop_writes, timeout_writes, at_cmd_writes};

use super::bank_core::Core;
use uart_chip::at_cmd::AtCmdConfig;
use uart_chip::kind::ChipKind;
use uart_chip::wire::Wire;
use uart_rate::config::{ClockSource, StopBits};

pub trait Steps: ChipKind {
    // Writes the clock source and the prescaler.
    fn write_clock<W: Wire>(core: &mut Core<W>, source: ClockSource, prescaler: u16)
        ensures { core_meaning W.Wire core.new ≡ after_writes Self.ChipKind.PROPERTIES.has_update (clock_writes Self.ChipKind.PROPERTIES Self.BaudGenerator.P source prescaler) (core_meaning W.Wire core.old) };

    // Writes the stop bits.
    fn write_stop<W: Wire>(core: &mut Core<W>, stop: StopBits)
        ensures { core_meaning W.Wire core.new ≡ after_writes Self.ChipKind.PROPERTIES.has_update (stop_writes Self.ChipKind.PROPERTIES.stop_rule stop) (core_meaning W.Wire core.old) };

    // Writes the receive timeout, or that there is none.
    fn write_timeout<W: Wire>(core: &mut Core<W>, timeout: Option<u8>)
        ensures { core_meaning W.Wire core.new ≡ after_writes Self.ChipKind.PROPERTIES.has_update (timeout_writes Self.ChipKind.PROPERTIES.timeout_rule (core_meaning W.Wire core.old).rest.fields timeout) (core_meaning W.Wire core.old) };

    // Writes what makes an AT command.
    fn write_at_cmd<W: Wire>(core: &mut Core<W>, config: AtCmdConfig)
        ensures { core_meaning W.Wire core.new ≡ after_writes Self.ChipKind.PROPERTIES.has_update (at_cmd_writes Self.ChipKind.PROPERTIES.has_gate config) (core_meaning W.Wire core.old) };
}
