// What the line brought between two looks: new events, and how many bytes are there now.
use super::events::Events;

// No more is derived, for the time of a check: see `properties`.
#[derive(Clone, Copy)]
pub struct Arrival {
    pub events: Events,
    pub bytes: u32,
}
