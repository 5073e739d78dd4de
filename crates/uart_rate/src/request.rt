// What the divider rule is asked once a configuration has passed the other tests.
ghost use Rattle.std.specs.Prelude.{◌≤◌};

// A clock and the baud rate to be made of it, neither of which is 0.
#[derive(Clone, Copy, Debug, PartialEq, Eq, Hash)]
pub(crate) struct Request {
    pub(crate) clk: u32,
    pub(crate) baud: u32,
    ghost runs: { 1 ≤ clk },
    ghost asked: { 1 ≤ baud },
}
