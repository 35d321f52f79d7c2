//! A module for each part of Exec and for each kind of text. A test is a table of steps if its calls have one shape,
//! and says what a call answers, not how.
mod chunks;
mod comparing;
mod faults;
mod link_lists;
mod listings;
mod lists;
mod machine_files;
mod memory;
mod parts;
mod places;
mod pools;
mod traces;
