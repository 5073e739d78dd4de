// A kind of chip, by what it states about itself: no call changes any of it.
ghost use Rattle.std.specs.Prelude.{◌≡◌};
ghost use Rattle.uart_chip.specs.declared.properties.Properties.{Properties};

use super::properties::Properties;
use uart_rate::generator::BaudGenerator;

pub trait ChipKind: BaudGenerator {
    ghost PROPERTIES: { Properties };

    const PROPERTIES: Properties;
}
