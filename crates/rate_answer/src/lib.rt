// Answers queries about rates, and prints the answers.
#![tactic(auto)]

pub mod answer;
pub mod line;
