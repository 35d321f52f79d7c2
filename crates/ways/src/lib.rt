//! The ways in which extra events can come among the actions of a frame, and the table of what is seen of each. No
//! machine is known here.
#![tactic(auto)]

mod fault;
mod grouping;
pub mod laws;
mod sizes;
mod table;
mod tabler;
mod visiting;

pub use fault::SearchFault;
pub use grouping::{actions_of, events_for};
pub use sizes::{Sizes, part_window};
pub use table::{MOST_BYTES, Outcome};
pub use tabler::{Show, Tabler, Watcher, table_of_part};
pub use visiting::{Visitor, Window, visit_part};
