//! The Language Server Protocol, as far as a server for texts needs it: frames, the messages in them, methods, and
//! places in a line.
#![tactic(auto)]

mod frames;
mod input;
mod made;
mod message;
mod positions;
mod requests;

pub use frames::{Found, NotFramed, frame_of, front_of};
pub use input::{Input, Next, Waited};
pub use message::{Refusal, answer, notification, number_in, refused, text_in};
pub use positions::{characters_before, units_before};
pub use requests::{Asked, Noted, asked_by, noted_by};
