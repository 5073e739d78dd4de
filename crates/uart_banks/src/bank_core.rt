// What all banks have in common: a wire, the raw and the enabled events, the byte count, the register file, the waiting mark and the update that stands.
use uart_chip::events::Events;
use uart_chip::registers::Registers;

#[derive(Clone, Drop)]
pub struct Core<W> {
    pub wire: W,
    pub raw: Events,
    pub enabled: Events,
    pub count: u16,
    pub registers: Registers,
    pub waiting: bool,
    // the update that stands, if one does: so many reads still say that it stands, and the one after them finds it done
    pub standing: Option<u64>,
}
