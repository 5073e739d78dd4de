// The own ways of the ESP32-C6: those of the selected chips.
ghost use Rattle.std.proofs.Common.{rules};

use super::selected::Selected;
use uart_rate::esp32c6::Esp32c6;

impl Selected for Esp32c6 {
    ghost stated = { Prim.search rules };
}
