// The rate rules: settings and clocks in, a refusal or a divider and its rate out.
#![tactic(auto)]

pub mod achieve;
pub mod achieved;
pub mod clocks;
pub mod config;
pub mod divider;
pub mod esp32;
pub mod esp32c3;
pub mod esp32c6;
pub mod generator;
pub mod judge;
mod prescaled;
pub mod rate;
pub mod refusal;
mod request;
pub mod theorems;
