//! What distinguishes the states of a machine: its keys, and the laws by which a set of keys has every state. So far of
//! machines whose words do not touch their memory.
#![tactic(auto)]

mod bare;
mod beyond;
mod bytes;
mod key;
pub mod laws;
mod parts;
mod queues;

pub use bare::is_bare_machine;
pub use beyond::{Beyond, first_beyond};
pub use key::write_key;
