//! What the next step of a machine is to do, and how a task goes on by plain words.
ghost use Rattle.std.specs.Prelude.{◌≡◌};

use crate::scene::Linked;
use crate::step::TaskPlace;
use script::{Argument, Command, PlainWord, Word};

/// What the last of some steps is to do.
#[derive(Clone, Copy)]
pub enum Next {
    /// The next command of a task, or its end.
    Task(TaskPlace),
    /// A plain word that is noted already.
    Noted,
    /// The body of the software interrupt of this number.
    Softint(usize),
    /// Nothing: no task runs, or an alert has stopped the machine.
    Nothing,
}

/// Some steps that are done at once, of which there is one at least.
#[derive(Clone, Copy)]
pub struct Part {
    pub steps: u32,
    /// What the last of them is to do.
    pub next: Next,
}

impl Part {
    /// That many steps.
    pub fn new(steps: u32, next: Next) -> Part
        ensures steps { result.steps ≡ steps }
        ensures next { result.next ≡ next }
    {
        Part { steps, next }
    }
}

/// What the next step is to do.
pub fn next_of(machine: &Linked) -> Next {
    if let Some(task) = machine.next_actor() {
        if let Some(view) = machine.task(task) {
            return Next::Task(TaskPlace {
                task,
                place: view.place,
            });
        }
    }
    match machine.caused_after(None) {
        None => Next::Nothing,
        Some(number) => Next::Softint(number),
    }
}

/// Where a task goes on after a command, as far as the command says that alone.
#[derive(Clone, Copy)]
pub enum Way {
    /// At this place; it asks nothing of Exec and prints nothing.
    To(usize),
    /// At this place; it asks nothing of Exec and prints a line.
    Line(usize),
    /// At one of two places, which a variable chooses; it asks nothing of Exec and prints nothing.
    Either(usize, usize),
    /// That is for Exec to say.
    Call,
}

/// The place that is an argument of a command, or else that after it.
fn target_of(command: &Command, number: usize, place: usize) -> usize {
    match command.arguments.get(number) {
        Some(Argument::Place(target)) => *target as usize,
        _ => place.saturating_add(1),
    }
}

/// Where a task goes on after a command that is at this place.
pub fn way_after(command: &Command, place: usize) -> Way {
    match command.word {
        Word::Plain(word) => match word {
            PlainWord::Print => Way::Line(place.saturating_add(1)),
            PlainWord::Jump => Way::To(target_of(command, 0, place)),
            PlainWord::JumpZ | PlainWord::JumpNZ => {
                Way::Either(target_of(command, 1, place), place.saturating_add(1))
            }
            _ => Way::To(place.saturating_add(1)),
        },
        _ => Way::Call,
    }
}
