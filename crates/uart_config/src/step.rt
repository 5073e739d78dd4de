// The steps of a configuration that an update belongs to, and so a fault can name.
ghost use Rattle.std.specs.Prelude.{◌≡◌};
ghost use Rattle.uart_config.specs.Numbers.{step_number};

#[derive(Clone, Copy, PartialEq, Eq, Debug, Hash)]
pub enum Step {
    // clock source, prescaler and divider
    Divider = 1,
    // data bits, parity, stop bits and flow control
    Framing = 2,
    // receive threshold and timeout
    Receive = 3,
    // the receive FIFO's reset in a configuration
    RxReset = 4,
    // transmit threshold, and the transmit FIFO's reset
    Transmit = 5,
    // what makes an AT command
    AtCmd = 6,
    // the receive FIFO's reset after an overflow
    ErrorReset = 7,
}

impl Step {
    // The number that stands for the step in a reply.
    pub fn number(self) -> u8
        ensures { result ≡ step_number self }
    {
        self as u8
    }
}
