// Reads queries about rates.
#![tactic(auto)]

pub mod ask;
pub mod chip;
pub mod error;
pub mod query;
pub mod read;
