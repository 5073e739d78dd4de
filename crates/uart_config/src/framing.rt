// Step 2 of a configuration: data bits, parity, stop bits and flow control.
ghost use Rattle.uart_chip.specs.Meanings.{Wrote};
ghost use Rattle.uart_config.specs.Rows.{data_writes, parity_writes, sw_writes, cts_writes, rts_writes, framing_writes, framing_rows};
ghost use Rattle.uart_config.specs.Runs.{HasRoom, Ran};

use super::fault::Fault;
use super::step::Step;
use super::uart::Uart;
use uart_chip::chip::Chip;
use uart_chip::field::Field;
use uart_chip::kind::ChipKind;
use uart_chip::source::EventSource;
use uart_rate::config::{Config, CtsConfig, DataBits, Parity, RtsConfig, SwFlowControl};

// 5 to 8 data bits are 0 to 3.
fn change_data_bits<C: Chip>(chip: &mut C, data_bits: DataBits)
    ensures { Wrote C.EventSource C.Kind.ChipKind.PROPERTIES.has_update (data_writes data_bits) chip.old chip.new }
{
    chip.write(Field::BitNum, data_bits as u32);
}

// No parity keeps the field that tells odd from even.
fn change_parity<C: Chip>(chip: &mut C, parity: Parity)
    ensures { Wrote C.EventSource C.Kind.ChipKind.PROPERTIES.has_update (parity_writes parity) chip.old chip.new }
{
    // An arm for each parity shows what is written; a test and a flag are no plainer.
    match parity {
        Parity::None => chip.write(Field::ParityEn, 0),
        Parity::Even => {
            chip.write(Field::ParityEn, 1);
            chip.write(Field::Parity, 0);
        }
        Parity::Odd => {
            chip.write(Field::ParityEn, 1);
            chip.write(Field::Parity, 1);
        }
    }
}

// Flow control by characters.
fn change_sw_flow_control<C: Chip>(chip: &mut C, sw_flow_ctrl: SwFlowControl)
    ensures { Wrote C.EventSource C.Kind.ChipKind.PROPERTIES.has_update (sw_writes sw_flow_ctrl) chip.old chip.new }
{
    match sw_flow_ctrl {
        SwFlowControl::Enabled {
            xon_char,
            xoff_char,
            xon_threshold,
            xoff_threshold,
        } => {
            chip.write(Field::XonoffDel, 1);
            chip.write(Field::SwFlowConEn, 1);
            chip.write(Field::XonThreshold, u32::from(xon_threshold));
            chip.write(Field::XoffThreshold, u32::from(xoff_threshold));
            chip.write(Field::XonChar, u32::from(xon_char));
            chip.write(Field::XoffChar, u32::from(xoff_char));
        }
        SwFlowControl::Disabled => {
            chip.write(Field::SwFlowConEn, 0);
            chip.write(Field::XonoffDel, 0);
        }
    }
}

fn change_cts<C: Chip>(chip: &mut C, cts: CtsConfig)
    ensures { Wrote C.EventSource C.Kind.ChipKind.PROPERTIES.has_update (cts_writes cts) chip.old chip.new }
{
    chip.write(Field::TxFlowEn, u32::from(cts == CtsConfig::Enabled));
}

fn change_rts<C: Chip>(chip: &mut C, rts: RtsConfig)
    ensures { Wrote C.EventSource C.Kind.ChipKind.PROPERTIES.has_update (rts_writes rts) chip.old chip.new }
{
    // An arm for each shows that the threshold goes before the flag, and that off keeps it; a test and a flag are no plainer.
    match rts {
        RtsConfig::Enabled(threshold) => {
            chip.write(Field::RxFlowThrhd, u32::from(threshold));
            chip.write(Field::RxFlowEn, 1);
        }
        RtsConfig::Disabled => chip.write(Field::RxFlowEn, 0),
    }
}

// Writes framing and flow control.
#[tactic(auto, using(uart_chip::proofs::Writes::written_all_append))]
fn write_framing<C: Chip>(chip: &mut C, config: &Config)
    ensures { Wrote C.EventSource C.Kind.ChipKind.PROPERTIES.has_update (framing_writes C.Kind.ChipKind.PROPERTIES config.now) chip.old chip.new }
{
    change_data_bits(chip, config.data_bits);
    change_parity(chip, config.parity);
    chip.write_stop(config.stop_bits);
    change_sw_flow_control(chip, config.sw_flow_ctrl);
    change_cts(chip, config.hw_flow_ctrl.cts);
    change_rts(chip, config.hw_flow_ctrl.rts);
}

impl<C: Chip> Uart<C> {
    // Framing and flow control, with an update where the chip wants one.
    pub(crate) fn change_framing(&mut self, config: &Config) -> Result<(), Fault>
        requires { HasRoom (framing_rows C.Kind.ChipKind.PROPERTIES config.now) self.old }
        ensures { Ran C.EventSource C.Kind.ChipKind.PROPERTIES (framing_rows C.Kind.ChipKind.PROPERTIES config.now) self.old result self.new }
    {
        write_framing(&mut self.chip, config);
        if !C::Kind::PROPERTIES.updates_framing {
            return Ok(());
        }
        self.update(Step::Framing)
    }
}
