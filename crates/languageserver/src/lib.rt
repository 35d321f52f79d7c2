//! A language server for machine files and event texts: what an editor asks by the Language Server Protocol, and what
//! it is answered. It knows of no file and of no run: these are given to it.
#![tactic(auto)]

mod actions;
mod code;
mod completion;
mod definition;
mod documents;
mod finding;
mod hover;
mod made;
mod names;
mod publishing;
mod query;
mod server;
mod session;
mod spot;
mod subject;
mod symbols;
mod uri;
mod word_help;

pub use finding::Outside;
pub use server::{Served, Unserved, serve};
