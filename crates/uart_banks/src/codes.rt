// The codes by which fields hold a clock source and stop bits.
ghost use Rattle.std.specs.Prelude.{◌≡◌};
ghost use Rattle.uart_chip.specs.Steps.{source_code, stop_code};

use uart_rate::config::{ClockSource, StopBits};

// The code of a clock source in `sclk_sel`. Discriminants would be no plainer: the one enum of all chips' sources would state numbers that the ESP32 does not have.
pub fn source_code(source: ClockSource) -> u32
    ensures { result ≡ source_code source }
{
    match source {
        ClockSource::Apb => 1,
        ClockSource::RcFast => 2,
        ClockSource::Xtal => 3,
        ClockSource::RefTick => 0,
    }
}

// The code of the stop bits.
pub fn stop_code(stop: StopBits) -> u32
    ensures { result ≡ stop_code stop }
{
    stop as u32
}
