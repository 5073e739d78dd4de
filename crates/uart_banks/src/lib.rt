// Two wires, and the register banks of three chips over any wire.
#![tactic(auto)]

pub mod bank;
pub mod bank_core;
pub mod chip;
pub mod codes;
pub mod device;
pub mod esp32;
pub mod esp32c3;
pub mod esp32c6;
pub mod gate;
pub mod gated;
pub mod made;
pub mod scripted;
pub mod selected;
pub mod steady;
pub mod steps;
pub mod writes;
