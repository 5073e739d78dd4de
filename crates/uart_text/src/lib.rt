// Reads the text that the programs take: decimal numbers, and the words of a line.
#![tactic(auto)]

pub mod number;
pub mod words;
