//! Tests of the calls of the libraries, in one crate above them, so that each library is proved once.
#![tactic(auto)]

#[cfg(test)]
mod tests;
