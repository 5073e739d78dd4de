// Tests of the configuration of a chip over scripted wires, on values reckoned from the rules, not by this code.
#![tactic(auto)]

#[cfg(test)]
mod applies;
#[cfg(test)]
mod banks;
#[cfg(test)]
mod calls;
#[cfg(test)]
mod errors;
#[cfg(test)]
mod inits;
#[cfg(test)]
mod refusals;
