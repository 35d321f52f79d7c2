//! All that a machine shows, as a page of text.

mod holders;
mod machine;
mod memory;
mod objects;
mod tasks;

use crate::page::Page;
use crate::public_ports::PublicPorts;
use crate::run::Run;
use crate::values::push_number;
use escape::shown_text;
use execlist::space::ListSpace;
use execsim::Machine;
use std::alloc::{AllocError, Global};

/// What is known of a machine beside what it shows.
#[derive(Clone, Copy)]
struct Known<'a> {
    run: &'a Run,
    public: &'a PublicPorts,
}

/// Adds the title of a page.
fn push_title(page: &mut Page, path: &str, number: u64, last: u64) {
    page.push_str(path);
    page.push_str(" after step ");
    push_number(page, number);
    page.push_str(" of ");
    push_number(page, last);
    page.push_str("\n\n");
}

/// The page of what a machine of a run shows after the step of a number, of which the last one has the number `last`.
/// `path` names the machine file in the title, and `public` has heard the run so far.
///
/// # Errors
///
/// When memory is refused.
///
/// Source: project rule.
pub fn page_of<S: ListSpace>(
    alloc: Global,
    run: &Run,
    path: &str,
    machine: &Machine<S>,
    public: &PublicPorts,
    number: u64,
    last: u64,
) -> Result<String, AllocError> {
    let path = shown_text(alloc, path)?;
    let mut page = Page::new(alloc);
    push_title(&mut page, path.as_str(), number, last);
    machine::push_machine(&mut page, machine, run);
    tasks::push_tasks(&mut page, machine, run);
    memory::push_memory(&mut page, machine, &Known { run, public });
    page.finish()
}
