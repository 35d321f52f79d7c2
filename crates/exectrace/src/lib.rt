//! Sinks, and the printed lines of a trace.
//!
//! A [`Sink`] takes bytes, and says which it took and how its last writes went; [`WriteSink`] makes one of a std
//! writer. A sink that has cells of its own may lend them to a [`Text`], which is then written there and not copied;
//! [`PageSink`] makes one of a [`PagedWrite`], a std writer with such cells. What a machine says is a [`Said`], and a
//! [`Witness`] hears it; each sink is one, which prints. A [`Line`] is one line of a trace, and [`emit`] writes it. Who
//! prints many lines in a row uses [`printing`], whose calls do not fail, and asks [`sinks::written`] at the end. The
//! text of each line, and that a sink is given up after 16 writes in a row that took no byte, are this project's
//! project rule.
#![tactic(auto)]

mod cells;
mod draft;
pub mod laws;
pub mod lines;
mod paging;
mod printer;
pub mod printing;
pub mod sinks;
mod telling;
mod values;
mod whole;
mod witness;

pub use cells::{ROOM, Text};
pub use lines::{Arg, Arguments, CallLine, CallOutcome, Line, Name, ShortArg};
pub use paging::{PageSink, PagedWrite};
pub use printer::print;
pub use printing::emit;
pub use sinks::{Sink, SinkFault, SinkState, WriteFault, WriteSink};
pub use telling::Said;
pub use witness::Witness;
