//! Tests of readers, and of machines that are reset, which no table of runs can hold.
#![tactic(auto)]

#[cfg(test)]
mod tests;
