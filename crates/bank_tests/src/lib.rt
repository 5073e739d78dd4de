// Tests of the banks, step by step over scripted wires, and two chips that are none of the three.
#![tactic(auto)]

#[cfg(test)]
mod banks;
pub mod fifth;
pub mod fourth;
