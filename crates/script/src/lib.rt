//! What scripts are made of: words, commands, variables, names, sources, events, alerts, and the data of a machine
//! file.
#![tactic(auto)]

mod alert;
mod command;
mod event;
mod file;
mod interrupting;
mod name;
mod variable;
mod word;

pub use alert::Alert;
pub use command::{Argument, Command};
pub use event::{Event, Events};
pub use file::{LibraryRecord, MachineFile, ServerRecord, SoftintRecord, TaskRecord};
pub use interrupting::is_word_of_interrupt;
pub use name::{Name, is_name};
pub use softint::source::Source;
pub use variable::Variable;
pub use word::{
    InterruptWord, Kind, LibraryWord, ListWord, MemoryWord, NestingWord, PlainWord, PortWord,
    RequestWord, SemaphoreWord, SignalWord, TaskWord, Word, word_of, words,
};
