// The device by its meaning: events and sets of them, fields, and the interfaces of event sources, chips and wires.
#![tactic(auto)]

pub mod arrival;
pub mod at_cmd;
pub mod bits;
pub mod chip;
pub mod chips;
pub mod enum_set;
pub mod event;
pub mod event_kind;
pub mod events;
pub mod field;
pub mod file;
pub mod kind;
pub mod kinds;
pub mod properties;
pub mod registers;
pub mod set;
pub mod sets;
pub mod snapshot;
pub mod source;
pub mod symbol;
pub mod theorems;
pub mod wire;
