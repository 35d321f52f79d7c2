//! The abstract machine: what a machine file does over a list of events, as definitions (`specs/`), and what is proved
//! of them (`proofs/`). The functions here have no effect. Their contracts are laws, and whole traces of small machines
//! as the definitions compute them.
#![tactic(auto)]

pub mod feeding;
pub mod laws;
pub mod runs;
