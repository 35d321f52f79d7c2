//! The command `execlog`: a run with the number of each step, its time, and the line and the text of its command; its
//! picture; or what a machine shows after some steps.
#![tactic(auto)]

mod choice;
mod command_line;
mod ending;
mod failure;
mod options;
mod pictures;
mod reading;
mod running;
mod state;
mod writing;

pub use command_line::Paths;
pub use failure::Failure;
pub use logforms::{Run, last_number};
pub use options::{Options, View};
pub use reading::run_of;
pub use running::{run_on_arguments, run_on_texts, write_run};
