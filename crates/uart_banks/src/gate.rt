// The clock gate, shut for as long as a guard of it lives.
ghost use Rattle.std.specs.Prelude.{◌≡◌};

// While this lives the clock gate is shut; its end opens it. It borrows the plain gate field, so that nobody else has it meanwhile.
pub struct ShutGate<'a> {
    gate: &'a mut u32,
}

impl<'a> ShutGate<'a> {
    // Shuts the gate.
    pub fn new(gate: &'a mut u32) -> ShutGate<'a>
        ensures shut { result.gate.now ≡ 0 }
        ensures lent { result.gate.ghost_name ≡ gate.entry.ghost_name }
    {
        *gate = 0;
        ShutGate { gate }
    }
}

impl Drop for ShutGate<'_> {
    fn drop(self)
        ensures { self.exit.0.now ≡ 1 }
    {
        let ShutGate { gate } = self;
        *gate = 1;
    }
}
