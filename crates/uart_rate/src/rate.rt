// The arithmetic of the rate rules.
ghost use Rattle.std.specs.Prelude.{◌≡◌, ℕ, ◌+◌, ◌-◌, ◌*◌, ◌/◌, ◌%◌, ◌^◌, ◌<◌, ◌≤◌, nat_lt};
ghost use Rattle.uart_rate.specs.Rates.{LeastPrescaler, RateLaw, WholePart, needed_of, sixteenths_of};

use super::divider::Divider;
use super::request::Request;

// The whole part of a quotient.
fn whole_part(n: u64, m: u64) -> u64
    requires { 1 ≤ m }
    ensures { WholePart n m result }
{
    n / m
}

impl Request {
    // The least prescaler under which the clock is at most Q times the baud rate.
    pub(crate) fn least_prescaler(&self, q: u32) -> u64
        requires { 1 ≤ q }
        ensures least { LeastPrescaler q self.now.clk self.now.baud result }
        ensures bound { result ≤ self.now.clk }
    {
        u64::from(self.clk).div_ceil(u64::from(q) * u64::from(self.baud))
    }

    // The largest divider, in sixteenths, that is not slower than asked under the least prescaler.
    pub(crate) fn divisor(&self, q: u32, prescaler: u64) -> u64
        requires { (LeastPrescaler q self.now.clk self.now.baud prescaler) × (prescaler ≤ 256) }
        ensures { RateLaw q self.now.clk self.now.baud prescaler result }
    {
        16 * u64::from(self.clk) / (u64::from(self.baud) * prescaler)
    }

    // How far the rate is above the baud rate, in millionths of it.
    pub(crate) fn excess(&self, divider: Divider) -> u64
        requires { needed_of self.now.baud divider ≤ 16 * self.now.clk }
        ensures { WholePart (1000000 * (16 * self.now.clk - needed_of self.now.baud divider)) (needed_of self.now.baud divider) result }
    {
        let needed = divider.needed(self.baud) as u64;
        whole_part(1_000_000 * (16 * u64::from(self.clk) - needed), needed)
    }
}

impl Divider {
    // The divider in sixteenths.
    pub fn sixteenths(&self) -> u64
        ensures { result ≡ sixteenths_of self.now }
    {
        16 * u64::from(self.integer) + u64::from(self.fraction)
    }

    // By how many sixteenths the clock is divided in all.
    fn division(&self) -> u64
        ensures value { result ≡ self.now.prescaler * sixteenths_of self.now }
        ensures bound { (1 ≤ result) × (result < 2 ^ 48) }
    {
        u64::from(self.prescaler) * self.sixteenths()
    }

    // The whole part of the rate that the divider makes of a clock.
    pub fn rate(&self, clk: u32) -> u64
        ensures { WholePart (16 * clk) (self.now.prescaler * sixteenths_of self.now) result }
    {
        whole_part(16 * u64::from(clk), self.division())
    }

    // How many sixteenths of a clock tick there must be in a second for the rate to be `baud`.
    fn needed(&self, baud: u32) -> u128
        ensures value { result ≡ needed_of baud self.now }
        ensures bound { result < 2 ^ 80 }
        ensures positive { 1 ≤ baud → 1 ≤ result }
    {
        u128::from(baud) * u128::from(self.division())
    }

    // Whether the divider's rate is more than so many percent above the baud rate; reckoned without a division, so that nothing is cut off.
    pub(crate) fn exceeds(&self, percent: u8, clk: u32, baud: u32) -> bool
        ensures { result ≡ nat_lt ((100 + percent) * needed_of baud self.now) (1600 * clk) }
    {
        (100 + u128::from(percent)) * self.needed(baud) < 1600 * u128::from(clk)
    }
}
