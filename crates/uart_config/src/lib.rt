// One chip with its budget: updates, the steps of a configuration, and what each refusal leaves behind.
#![tactic(auto)]

pub mod apply;
pub mod baud;
pub mod calls;
pub mod errors;
pub mod fault;
pub mod fifo;
pub mod framing;
pub mod init;
mod judged;
pub mod receive;
pub mod reset;
pub mod rx_error;
pub mod step;
pub mod threshold;
pub mod transmit;
pub mod uart;
pub mod update;
