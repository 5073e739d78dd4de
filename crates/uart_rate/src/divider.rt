// The divider that a chip's rate fields hold.
ghost use Rattle.std.specs.Prelude.{◌+◌, ◌*◌, ◌<◌, ◌≤◌};

// The clock is divided by `prescaler`, and then by `integer` and `fraction` sixteenths. Every value lies within what a chip may state, and none divides by 0.
#[derive(Clone, Copy, Debug, PartialEq, Eq, Hash)]
pub struct Divider {
    pub prescaler: u16,
    pub integer: u32,
    pub fraction: u8,
    ghost prescales: { (1 ≤ prescaler) × (prescaler ≤ 256) },
    ghost divides: { 1 ≤ 16 * integer + fraction },
    ghost fits: { integer ≤ 268435456 },
    ghost sixteenths: { fraction < 16 },
}
