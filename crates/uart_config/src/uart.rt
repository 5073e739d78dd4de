// A chip, how often an update of it may be polled, and the polls of the call under way.
ghost use Rattle.std.specs.Prelude.{◌≡◌, max};

pub struct Uart<C> {
    pub chip: C,
    pub(crate) budget: u16,
    // how often the call under way has polled, set to 0 before its first update; it stands here, so that the steps hand no number along
    pub(crate) reads: u32,
}

impl<C> Uart<C> {
    // A budget of 0 counts as 1.
    pub fn new(chip: C, budget: u16) -> Uart<C>
        ensures chip { result.chip ≡ chip }
        ensures budget { result.budget ≡ max budget 1 }
        ensures reads { result.reads ≡ 0 }
    {
        Uart {
            chip,
            budget: budget.max(1),
            reads: 0,
        }
    }

    // The chip back.
    pub fn into_chip(self) -> C
        ensures { result ≡ self.chip }
    {
        let Uart {
            chip,
            budget: _,
            reads: _,
        } = self;
        chip
    }

    // How often an update may be polled.
    pub fn budget(&self) -> u16
        ensures { result ≡ self.now.budget }
    {
        self.budget
    }
}
