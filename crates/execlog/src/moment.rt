//! When a part of a trace was printed, and whose command it was.
ghost use Rattle.std.specs.Prelude.{◌≡◌};
ghost use Rattle.execlog.specs.Runs.{actor_now};

use execlist::space::ListSpace;
use execsim::Machine;
use script::Event;
use taskq::TaskId;

/// A task at a command.
#[derive(Clone, Copy)]
pub struct Actor {
    /// The number of the task, from 0 in the order of the file.
    pub task: TaskId,
    /// The place of the command in its code, from 0; the number of commands if the task has come to its end.
    pub place: usize,
}

/// What is known of the start, a step, a tick or a request of an interrupt.
#[derive(Clone, Copy)]
pub struct Moment {
    /// Its number; the start has 0.
    pub number: u64,
    /// What the clock shows after it, in microseconds.
    pub clock: u64,
    /// The task whose command a step was.
    pub actor: Option<Actor>,
}

/// The task whose command an event is, if it is a step of a task.
#[inline(always)]
pub(crate) fn actor_of<S: ListSpace>(machine: &Machine<S>, one: Event) -> Option<Actor>
    ensures { result ≡ actor_now one machine.now.seen }
{
    match one {
        Event::Run(_) => next_actor(machine),
        Event::Tick(_) => None,
        Event::Irq(_) => None,
    }
}

/// The task that the next step is a command of, at that command.
#[inline(always)]
fn next_actor<S: ListSpace>(machine: &Machine<S>) -> Option<Actor>
    ensures { result ≡ actor_now (Event.Run 1) machine.now.seen }
{
    match machine.next_actor() {
        None => None,
        Some(t) => match machine.task(t) {
            None => None,
            Some(view) => Some(Actor {
                task: t,
                place: view.place,
            }),
        },
    }
}
