// The caller's record of its clocks, in hertz: an argument of every call that sets a rate, and free to differ from call to call.
ghost use Rattle.std.specs.Prelude.{◌≡◌};
ghost use Rattle.uart_rate.specs.Clocks.{hertz_of};

use super::config::ClockSource;

#[derive(Clone, Copy, Debug, PartialEq, Eq, Hash)]
pub struct Clocks {
    pub apb_clock: u32,
    pub rc_fast_clock: u32,
    pub xtal_clock: u32,
    pub ref_tick: u32,
}

impl Clocks {
    // The hertz of one source.
    pub fn hertz(&self, source: ClockSource) -> u32
        ensures { result ≡ hertz_of self.now source }
    {
        match source {
            ClockSource::Apb => self.apb_clock,
            ClockSource::RcFast => self.rc_fast_clock,
            ClockSource::Xtal => self.xtal_clock,
            ClockSource::RefTick => self.ref_tick,
        }
    }
}
