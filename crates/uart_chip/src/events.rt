// A set of events: which of the nine are in it, and nothing else.
#[derive(Clone, Copy, Debug, PartialEq, Eq)]
pub struct Events {
    pub fifo_full: bool,
    pub cmd_char_detected: bool,
    pub fifo_ovf: bool,
    pub fifo_tout: bool,
    pub glitch_detected: bool,
    pub frame_error: bool,
    pub parity_error: bool,
    pub done: bool,
    pub fifo_empty: bool,
}
