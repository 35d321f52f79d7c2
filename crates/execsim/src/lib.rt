//! The machine: it runs what a machine file states over a list of events, and prints the trace. `Machine` is what
//! callers use, `simulate` the whole way from two texts to a trace. `Kernel` is the machine without its failure to
//! write; each word group has a module of its own.
#![tactic(auto)]

mod bodies;
mod body_calls;
mod boot;
mod call;
mod calls;
mod causing;
mod change;
mod code;
mod interrupts;
mod kernel;
mod libraries;
mod lists;
mod machine;
mod memory;
mod nesting;
mod plain;
mod ports;
mod progress;
mod reading;
mod requests;
mod reset;
mod resting;
mod semaphores;
mod simulation;
mod step;
mod task_signals;
mod tasks;
mod waiting_lines;

/// What is seen of a block of memory and of the object that begins there.
pub use execheap::{BlockView, DueTime, Gap, LibraryView, ObjectView, PortView};
/// Laws of every run of the abstract machine, which the machine follows.
pub use call::Call;
pub use execmodel::laws;
pub use machine::{AddFault, Flow, Machine, MachineView, TaskView};
pub use reading::{FILE_LIMIT, ReadFault, read_limited};
pub use simulation::{End, SimFault, simulate, simulate_on};
