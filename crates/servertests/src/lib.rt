//! Tests of the language server and of its protocol, in one crate above them, so that each library is proved once.
#![tactic(auto)]

#[cfg(test)]
mod tests;
