//! What of a machine changes often and is soon compared: the variables, and the place and the signals of each task.
use crate::scene::Linked;
use std::alloc::{AllocError, Global};

/// What is compared of a task.
#[derive(Drop)]
struct TaskGlance {
    place: usize,
    received: u32,
    is_in_call: bool,
    variables: Vec<u32>,
}

/// What is compared of a machine.
#[derive(Drop)]
pub(crate) struct Glance {
    shared: Vec<u32>,
    tasks: Vec<TaskGlance>,
}

impl TaskGlance {
    /// What a task shows now.
    fn new(alloc: Global, machine: &Linked, task: usize) -> Result<TaskGlance, AllocError> {
        let view = machine.task(task);
        Ok(TaskGlance {
            place: view.map_or(0, |view| view.place),
            received: view.map_or(0, |view| view.received),
            is_in_call: machine.call(task).is_some(),
            variables: Vec::from_slice(alloc, machine.variables(task))?,
        })
    }

    /// Whether a task shows that.
    fn is_shown(&self, machine: &Linked, task: usize) -> bool {
        machine.task(task).is_some_and(|view| {
            view.place == self.place && view.received == self.received
        }) && machine.call(task).is_some() == self.is_in_call
            && machine.variables(task) == self.variables.as_slice()
    }
}

impl Glance {
    /// What a machine shows now.
    pub(crate) fn new(alloc: Global, machine: &Linked) -> Result<Glance, AllocError> {
        let mut tasks = Vec::new(alloc);
        for task in 0..machine.view().tasks {
            tasks.push(TaskGlance::new(alloc, machine, task)?)?;
        }
        Ok(Glance {
            shared: Vec::from_slice(alloc, machine.shared_variables())?,
            tasks,
        })
    }

    /// Whether a machine shows that.
    pub(crate) fn is_shown(&self, machine: &Linked) -> bool {
        machine.shared_variables() == self.shared.as_slice()
            && self
                .tasks
                .iter()
                .enumerate()
                .all(|(task, glance)| glance.is_shown(machine, task))
    }
}
