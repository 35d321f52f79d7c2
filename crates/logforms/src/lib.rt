//! What a log and a page of a machine are written from: the book of a machine file, rows with plain words, JSON, and
//! what a machine shows.
#![tactic(auto)]

mod bookmaking;
mod ending;
mod events;
mod json;
mod making;
mod page;
mod plain_words;
mod public_ports;
mod replay;
mod rows;
mod run;
mod state;
mod values;
mod words;

pub use bookmaking::book_of;
pub use ending::alert_before;
pub use events::{ends_of, events_up_to, last_number};
pub use json::Json;
pub use making::{run_events, stops_over};
pub use public_ports::PublicPorts;
pub use rows::Written;
pub use run::Run;
pub use state::page_of;
pub use words::Words;
