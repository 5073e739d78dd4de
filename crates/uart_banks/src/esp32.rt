// The ESP32's own ways. A rule of the project has each chip give its own four steps; a text is shared only by chips that state `Selected`.
use super::bank_core::Core;
use super::steps::Steps;
use uart_chip::at_cmd::AtCmdConfig;
use uart_chip::field::Field;
use uart_chip::wire::Wire;
use uart_rate::config::{ClockSource, StopBits};
use uart_rate::esp32::Esp32;

impl Steps for Esp32 {
    fn write_clock<W: Wire>(core: &mut Core<W>, source: ClockSource, _prescaler: u16) {
        core.write_on::<Self>(
            Field::TickRefAlwaysOn,
            u32::from(source == ClockSource::Apb),
        );
    }

    fn write_stop<W: Wire>(core: &mut Core<W>, stop: StopBits) {
        if stop == StopBits::_2 {
            core.write_on::<Self>(Field::Dl1En, 1);
            core.write_on::<Self>(Field::StopBitNum, 1);
        }
    }

    fn write_timeout<W: Wire>(core: &mut Core<W>, timeout: Option<u8>) {
        match timeout {
            Some(symbols) => {
                core.write_on::<Self>(Field::RxToutThrhd, u32::from(symbols));
                core.write_on::<Self>(Field::RxToutEn, 1);
            }
            None => core.write_on::<Self>(Field::RxToutEn, 0),
        }
    }

    fn write_at_cmd<W: Wire>(core: &mut Core<W>, config: AtCmdConfig) {
        core.write_on::<Self>(Field::AtCmdChar, u32::from(config.cmd_char));
        core.write_on::<Self>(Field::CharNum, u32::from(config.char_num));
        core.write_given_on::<Self>(Field::PreIdleNum, config.pre_idle_count);
        core.write_given_on::<Self>(Field::PostIdleNum, config.post_idle_count);
        core.write_given_on::<Self>(Field::RxGapTout, config.gap_timeout);
    }
}
