// Tests of the rate rules and of the reading of queries, on values reckoned from the rules, not by this code.
#![tactic(auto)]

#[cfg(test)]
mod numbers;
#[cfg(test)]
mod queries;
#[cfg(test)]
mod rates;
#[cfg(test)]
mod words;
