// What the head gets from an accepted configuration.
use super::divider::Divider;

#[derive(Clone, Copy, Debug, PartialEq, Eq, Hash)]
pub struct Achieved {
    // the clock that is divided, in hertz
    pub clk: u32,
    pub divider: Divider,
    // the whole part of the rate, in baud
    pub rate: u32,
    // how far the rate is above what was asked, in millionths of that, rounded down
    pub excess: u32,
}
