// A query: which rate does the head get?
use super::chip::ChipName;
use uart_rate::config::BaudrateTolerance;

#[derive(Clone, Copy, Debug, PartialEq, Eq, Hash)]
pub struct Query {
    pub chip: ChipName,
    pub clk: u32,
    pub baud: u32,
    // none: any rate is near enough
    pub tolerance: Option<BaudrateTolerance>,
}
