// What a chip states about itself, where chips differ.
// No code compares or prints these or the structs of `arrival`, `registers`, `snapshot` and `source`. They miss the bar of a fast check, which each must-fail edit is: with the usual derives on all types of the crate a check of it from nothing took 102 s of processor time in place of 65 s.

// How the clock source is written.
#[derive(Clone, Copy)]
pub enum SourceStyle {
    // `tick_ref_always_on` is 1 for APB and 0 for every other source
    Tick,
    // `sclk_sel` holds the source's code
    Select,
}

// How the stop bits are written.
#[derive(Clone, Copy)]
pub enum StopRule {
    // `stop_bit_num` holds their code
    Code,
    // only two stop bits write anything: `dl1_en` on, and `stop_bit_num` as for one
    ExtraStop,
}

// What the receive timeout counts.
#[derive(Clone, Copy)]
pub enum TimeoutRule {
    // the number that was given
    Symbols,
    // bits: the number that was given times the length of a symbol
    Bits,
}

#[derive(Clone, Copy)]
pub struct Properties {
    pub source_style: SourceStyle,
    pub stop_rule: StopRule,
    pub timeout_rule: TimeoutRule,
    // RC_FAST needs `dig_clk8m_en`
    pub has_fast_clock: bool,
    // the at-command fields are written with the clock gate shut
    pub has_gate: bool,
    // line fields take effect by an update
    pub has_update: bool,
    // framing and flow control are followed by an update of their own
    pub updates_framing: bool,
}
