// The fields of the UART registers, by Espressif's names for them. docs/FIELDS.md tells what each is and which chip has it.
ghost use Rattle.std.specs.Prelude.{◌≡◌, ◌<◌};
ghost use Rattle.uart_chip.specs.Fields.{index_of, line};

#[derive(Clone, Copy, Debug, PartialEq, Eq)]
pub enum Field {
    SclkSel = 0,
    SclkDivNum = 1,
    SclkDivA = 2,
    SclkDivB = 3,
    SclkEn = 4,
    DigClk8mEn = 5,
    TickRefAlwaysOn = 6,
    Clkdiv = 7,
    Frag = 8,
    BitNum = 9,
    ParityEn = 10,
    Parity = 11,
    StopBitNum = 12,
    Dl1En = 13,
    XonChar = 14,
    XoffChar = 15,
    XonThreshold = 16,
    XoffThreshold = 17,
    SwFlowConEn = 18,
    XonoffDel = 19,
    TxFlowEn = 20,
    RxFlowEn = 21,
    RxFlowThrhd = 22,
    RxfifoFullThrhd = 23,
    RxToutThrhd = 24,
    RxToutEn = 25,
    RxfifoRst = 26,
    TxfifoRst = 27,
    TxfifoEmptyThrhd = 28,
    AtCmdChar = 29,
    CharNum = 30,
    PreIdleNum = 31,
    PostIdleNum = 32,
    RxGapTout = 33,
    TxIdleNum = 34,
    ErrWrMask = 35,
}

impl Field {
    // The field's place in a register file.
    pub fn index(self) -> usize
        ensures value { result ≡ index_of self }
        ensures bound { result < 36 }
    {
        self as usize
    }

    // Whether a write of the field reaches the line only by an update.
    pub fn is_line(self) -> bool
        ensures { result ≡ line self }
    {
        // A negated `matches!` of these fields left its goal open, so the `match` is written out.
        match self {
            Field::SclkSel
            | Field::SclkDivNum
            | Field::SclkDivA
            | Field::SclkDivB
            | Field::SclkEn
            | Field::DigClk8mEn
            | Field::TickRefAlwaysOn
            | Field::RxfifoFullThrhd
            | Field::TxfifoEmptyThrhd
            | Field::TxIdleNum
            | Field::ErrWrMask => false,
            _ => true,
        }
    }
}
