//! The log of a run: an entry for the start, and one for each step, tick and request of an interrupt, with its number,
//! the time, the command and what it printed. `write_log` runs a machine and writes each entry in a form, but for steps
//! that print nothing and that the form does not show, which are done together; `Plain` is the form of rows, which has
//! the whole trace.
#![tactic(auto)]

mod book;
mod buffer;
mod cursor;
mod feed;
mod filter;
mod form;
mod frame;
mod head;
mod index;
pub mod laws;
mod log;
mod moment;
mod moves;
mod page;
mod plain;
mod rows;
mod sheet;

pub use book::{Body, Book, Place};
pub use cursor::{Cursor, Spot, place_at};
pub use filter::{Filter, Who};
pub use form::{Before, Form};
pub use log::{LogFault, write_log};
pub use moment::{Actor, Moment};
pub use page::Page;
pub use plain::{Plain, cut_line, line_of, source_at};
pub use rows::push_row;
