//! The command `execcheck` whole, over any texts, any words and any two writers: it says what is wrong with a machine
//! file and an event text, and where.
#![tactic(auto)]

mod arguments;
mod checking;
mod command_line;
mod editor;
mod explaining;
mod failure;
mod fixing;
mod mending;
mod options;
mod running;
mod sarif;
mod serving;
mod sheet;
mod writing;

pub use arguments::run_on_arguments;
pub use command_line::Paths;
pub use running::run_on_texts;
pub use writing::{Shelf, Unwritten};
