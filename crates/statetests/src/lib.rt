//! Tests of the search for all states of a machine, and of its report.
#![tactic(auto)]

#[cfg(test)]
mod tests;
