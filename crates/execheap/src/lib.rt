//! The memory of a machine and the objects that live in it, by address. `Heap` is what callers use. `objects` keeps the
//! objects by number, and a file for each kind has the kind's calls, by number and by address; `table` says which block
//! is an object of which kind and number, and which a loaded library; `view` is what is seen of a block.
#![tactic(auto)]

mod awaited;
mod heap;
mod objects;
mod refusal;
mod table;
mod tag;
mod view;

pub use awaited::Awaited;
pub use execlib::library::LibInit;
pub use execlist::key::Name;
pub use execlist::space::ListSpace;
pub use heap::Heap;
pub use memlist::{Gap, Region};
pub use msgport::action::{Action, PortAction, TaskId};
pub use refusal::Refusal;
pub use sigsem::semaphore::Obtained;
pub use timerdev::timer::DueTime;
pub use view::{BlockView, LibraryView, ObjectView, PortView};
