// The own ways of the ESP32-C3: those of the selected chips, with a fast clock.
ghost use Rattle.std.proofs.Common.{rules};

use super::selected::Selected;
use uart_rate::esp32c3::Esp32c3;

impl Selected for Esp32c3 {
    ghost stated = { Prim.search rules };
}
