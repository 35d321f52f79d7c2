//! Tasks that wait in a circle for each other's semaphores, messages and signals.
use crate::argument::joined;
use crate::page::Page;
use crate::scene::Scene;
use crate::wait::{Awaited, Waiter, awaited_text, wait_of};
use std::alloc::AllocError;

/// How many tasks of a circle are named at most.
const MOST_NAMED: usize = 4;

/// What ends a circle of tasks that wait for semaphores, for signals and messages, or for both.
const ONE_ORDER: &str = "; let all tasks obtain them in one order";

const SEND_FIRST: &str = "; let one of them send or reply before it waits";

const RELEASE_FIRST: &str = "; let the owner of the semaphore release it before it waits";

impl Scene<'_, '_> {
    /// Whether a task waits for a semaphore.
    fn wants_semaphore(&self, task: usize) -> bool {
        wait_of(self.machine, task).is_some_and(|waiter| matches!(
            waiter.awaited,
            Awaited::Semaphore(_)
        ))
    }

    /// What ends a circle, as the end of the sentence of its first task; nothing of the others, and of one task.
    fn way_out(&self, circle: &[usize], task: usize) -> &'static str {
        let is_first = circle.iter().all(|other| task <= *other);
        if !is_first || circle.len() < 2 {
            ""
        } else if circle.iter().all(|one| self.wants_semaphore(*one)) {
            ONE_ORDER
        } else if circle.iter().any(|one| self.wants_semaphore(*one)) {
            RELEASE_FIRST
        } else {
            SEND_FIRST
        }
    }

    /// The names of the tasks of a circle, the first ones in the order of the file.
    fn names_of(&self, circle: &[usize]) -> Result<String, AllocError> {
        let alloc = self.alloc;
        let mut tasks = Vec::from_slice(alloc, circle)?;
        tasks.sort()?;
        let mut names = Vec::new(alloc);
        for task in tasks.iter().take(MOST_NAMED) {
            let name = self.name(*task);
            names.push(format!(in alloc; "\"{name}\"")?)?;
        }
        match tasks.len().saturating_sub(MOST_NAMED) {
            0 => {}
            1 => names.push(format!(in alloc; "1 other")?)?,
            others => names.push(format!(in alloc; "{others} others")?)?,
        }
        joined(alloc, &names, " and ")
    }

    /// What a task of a circle waits for, and which task of it alone could end that.
    fn cause(&self, waiter: &Waiter, next: usize) -> Result<String, AllocError> {
        let alloc = self.alloc;
        let name = self.name(next);
        let awaited = awaited_text(alloc, waiter.awaited)?;
        if let Awaited::Semaphore(_) = waiter.awaited {
            return format!(in alloc; "waits for {awaited}, which task \"{name}\" owns");
        }
        let more = self.why_text(waiter, "")?;
        format!(in alloc; "waits for {awaited}, which only task \"{name}\" could send{more}")
    }

    /// Adds that a task of a circle waits for the next one.
    pub(crate) fn add_deadlock<'a>(
        &self,
        page: &mut Page<'a>,
        circle: &[usize],
        waiter: &Waiter,
    ) -> Result<(), AllocError> {
        let alloc = self.alloc;
        let names = self.names_of(circle)?;
        let next = circle.get(1).copied().unwrap_or(waiter.turn.task);
        let cause = self.cause(waiter, next)?;
        let reason = if circle.len() == 1 {
            format!(in alloc; "task {names} waits for itself: it {cause}")?
        } else {
            let way = self.way_out(circle, waiter.turn.task);
            format!(in alloc; "tasks {names} wait for each other: this one {cause}{way}")?
        };
        page.warn(waiter.turn.spot(), "deadlock", reason.as_str())
    }
}
