//! A machine at the end of its run, with what was noted of that run.
use crate::course::Course;
use execlist::link::LinkSpace;
use execsim::Machine;
use std::alloc::Global;

/// A machine whose lists are linked cells, as those of the program are.
pub type Linked = Machine<LinkSpace>;

/// What is asked when something is said of the end of a run.
#[derive(Clone, Copy)]
pub struct Scene<'a, 'b> {
    pub alloc: Global,
    pub machine: &'b Linked,
    pub course: &'b Course<'a>,
}

impl<'b> Scene<'_, 'b> {
    /// The name of a task.
    pub fn name(&self, task: usize) -> &'b str {
        self.machine.task_name(task).unwrap_or("")
    }
}
