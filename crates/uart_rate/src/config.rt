// What a caller asks of a port. Plain data that can hold every wrong value: a configuration is judged by the call that is given it, and nowhere else.
ghost use Rattle.std.specs.Prelude.{◌≡◌};
ghost use Rattle.uart_rate.specs.Defaults.{DefaultConfig};

// Where the baud rate generator takes its clock from.
#[derive(Clone, Copy, Debug, PartialEq, Eq, Hash)]
pub enum ClockSource {
    Apb,
    RcFast,
    Xtal,
    RefTick,
}

// How far above the baud rate asked for the head's rate may be.
#[derive(Clone, Copy, Debug, PartialEq, Eq, Hash)]
pub enum BaudrateTolerance {
    // any distance
    Closest,
    // one percent
    Exact,
    // so many percent; 1 to 100 are accepted
    ErrorPercent(u8),
}

#[derive(Clone, Copy, Debug, PartialEq, Eq, Hash)]
pub enum DataBits {
    _5 = 0,
    _6 = 1,
    _7 = 2,
    _8 = 3,
}

// The next five are esp-hal's own types, which the driver's users name: a rule of the project keeps them, and no `Option` or `bool` stands for them.
#[derive(Clone, Copy, Debug, PartialEq, Eq, Hash)]
pub enum Parity {
    None,
    Even,
    Odd,
}

#[derive(Clone, Copy, Debug, PartialEq, Eq, Hash)]
pub enum StopBits {
    _1 = 1,
    _1p5 = 2,
    _2 = 3,
}

#[derive(Clone, Copy, Debug, PartialEq, Eq, Hash)]
pub enum SwFlowControl {
    Disabled,
    Enabled {
        xon_char: u8,
        xoff_char: u8,
        xon_threshold: u8,
        xoff_threshold: u8,
    },
}

#[derive(Clone, Copy, Debug, PartialEq, Eq, Hash)]
pub enum CtsConfig {
    Enabled,
    Disabled,
}

#[derive(Clone, Copy, Debug, PartialEq, Eq, Hash)]
pub enum RtsConfig {
    // the receive FIFO's fill at which the sender is stopped
    Enabled(u8),
    Disabled,
}

#[derive(Clone, Copy, Debug, PartialEq, Eq, Hash)]
pub struct HwFlowControl {
    pub cts: CtsConfig,
    pub rts: RtsConfig,
}

#[derive(Clone, Copy, Debug, PartialEq, Eq, Hash)]
pub struct RxConfig {
    pub fifo_full_threshold: u16,
    pub timeout: Option<u8>,
}

#[derive(Clone, Copy, Debug, PartialEq, Eq, Hash)]
pub struct TxConfig {
    pub fifo_empty_threshold: u16,
}

#[derive(Clone, Copy, Debug, PartialEq, Eq, Hash)]
pub struct Config {
    pub baudrate: u32,
    pub baudrate_tolerance: BaudrateTolerance,
    pub data_bits: DataBits,
    pub parity: Parity,
    pub stop_bits: StopBits,
    pub sw_flow_ctrl: SwFlowControl,
    pub hw_flow_ctrl: HwFlowControl,
    pub clock_source: ClockSource,
    pub rx: RxConfig,
    pub tx: TxConfig,
}

impl Config {
    // The settings of a caller who names only the clock source. A `From` would be no plainer: all but the source is a choice, and no conversion.
    pub fn from_source(clock_source: ClockSource) -> Config
        ensures { DefaultConfig clock_source result }
    {
        Config {
            baudrate: 115_200,
            baudrate_tolerance: BaudrateTolerance::Closest,
            data_bits: DataBits::_8,
            parity: Parity::None,
            stop_bits: StopBits::_1,
            sw_flow_ctrl: SwFlowControl::Disabled,
            hw_flow_ctrl: HwFlowControl {
                cts: CtsConfig::Disabled,
                rts: RtsConfig::Disabled,
            },
            clock_source,
            rx: RxConfig {
                fifo_full_threshold: 120,
                timeout: Some(10),
            },
            tx: TxConfig {
                fifo_empty_threshold: 10,
            },
        }
    }
}
