// A register bank: a chip of some kind over a wire of any type.
use super::bank_core::Core;
use uart_rate::esp32::Esp32;
use uart_rate::esp32c3::Esp32c3;
use uart_rate::esp32c6::Esp32c6;

#[derive(Clone, Drop)]
pub struct Bank<K, W> {
    pub kind: K,
    pub core: Core<W>,
}

pub type Esp32Bank<W> = Bank<Esp32, W>;

pub type Esp32c3Bank<W> = Bank<Esp32c3, W>;

pub type Esp32c6Bank<W> = Bank<Esp32c6, W>;
