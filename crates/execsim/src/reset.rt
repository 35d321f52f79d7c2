//! A used machine, put back to its first state with no memory taken: each part becomes what `boot` makes of the file,
//! if it is as large.
ghost use Rattle.std.specs.Prelude.{◌≡◌, ◌↔◌, [], length, map, nat_eq, true};
ghost use Rattle.script.specs.Records.{task_view};
ghost use Rattle.scheduler.specs.Schedule.{task_count, unstarted};
ghost use Rattle.timerdev.specs.Timing.{new_timer};
ghost use Rattle.execmodel.specs.State.{new_program};
ghost use Rattle.execheap.specs.Resetting.{IsAsLarge};
ghost use Rattle.execsim.specs.Resetting.{command_count, task_command_count};

use crate::progress::Program;
use execheap::Heap;
use execlist::space::ListSpace;
use scheduler::Sched;
use script::{MachineFile, TaskRecord};
use taskq::TaskInit;

/// Makes the names and priorities those of these tasks, which are as many.
fn reset_inits(inits: &mut Vec<TaskInit>, tasks: &[TaskRecord])
    requires { length inits.old.items ≡ length tasks.now }
    ensures names { map (λ t. t.name.bytes) inits.new.items ≡ map (λ t. t.name.bytes) tasks.now }
    ensures pris { map (λ t. t.pri) inits.new.items ≡ map (λ t. t.pri) tasks.now }
    ensures count { length inits.new.items ≡ length tasks.now }
{
    for t in 0..tasks.len() {
        let task = &tasks[t];
        inits[t] = TaskInit {
            name: task.name,
            pri: task.pri,
        };
    }
}

/// Makes the schedule that of these tasks, which are as many, and of which none was added. Their names and priorities
/// are put together in `inits`.
pub(crate) fn reset_sched<S: ListSpace>(
    sched: &mut Sched<S>,
    inits: &mut Vec<TaskInit>,
    tasks: &[TaskRecord],
    quantum: u8,
)
    requires tasks { task_count sched.old ≡ length tasks.now }
    requires room { length inits.old.items ≡ length tasks.now }
    ensures same { sched.new ≡ unstarted (length tasks.now) (map (λ t. t.pri) tasks.now) (map (λ t. t.name.bytes) tasks.now) quantum }
    ensures count { length inits.new.items ≡ length tasks.now }
{
    reset_inits(inits, tasks);
    sched.reset(inits.as_slice(), quantum);
}

/// Makes the programs those of these tasks, each at its first command, if they are as many and have as many commands,
/// and answers whether they have.
pub(crate) fn reset_programs(programs: &mut Vec<Program>, tasks: &[TaskRecord]) -> bool
    ensures answer { (result ≡ true) ↔ (map command_count programs.old.items ≡ map task_command_count (map task_view tasks.now)) }
    ensures same { result ≡ true → programs.new.items ≡ map new_program (map task_view tasks.now) }
    ensures count { length programs.new.items ≡ length programs.old.items }
{
    if programs.len() != tasks.len() {
        return false;
    }
    for t in 0..tasks.len() {
        let task = &tasks[t];
        if !programs[t].reset(&task.code, task.start) {
            return false;
        }
    }
    true
}

/// Makes the memory that of a file, if it is as large, and answers whether it is.
pub(crate) fn reset_heap<S: ListSpace>(heap: &mut Heap<S>, file: &MachineFile) -> bool
    ensures answer { (result ≡ true) ↔ IsAsLarge file.now.regions file.now.pool (length file.now.tasks) file.now.libraries heap.old }
    ensures same { result ≡ true → heap.new ≡ record {
      regions = file.now.regions;
      libraries = file.now.libraries;
      asks = nat_eq file.now.version 2;
      pool = file.now.pool;
      tasks = length file.now.tasks;
      heap = [];
      public = [];
      timer = new_timer file.now.tick_micros;
    } }
{
    heap.reset(
        file.regions(),
        file.pool(),
        file.tasks().len(),
        file.libraries(),
        file.version() == 2,
        file.tick_micros(),
    )
}
