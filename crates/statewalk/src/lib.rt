//! All states of the machine of a file, by a walk over them, and what their report ensures of every run.
#![tactic(auto)]

mod every;
pub mod laws;
mod lines;
mod room;
mod walk;

pub use every::every_state;
pub use walk::Walk;
