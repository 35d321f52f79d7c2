//! The key of the state of a machine.
ghost use Rattle.std.specs.Prelude.{◌≡◌, ◌++◌, ◌∷◌, [], Some, OnOk, length, option_copied, option_map};
ghost use Rattle.execsim.specs.{Readers.task_seen, Views.call_view};
ghost use Rattle.statekeys.specs.{Numbers.argument_numbers, Numbers.kept_numbers, Numbers.list_numbers, Numbers.numbers, Numbers.target_numbers, Numbers.task_numbers, Numbers.tasks_numbers, Views.head_numbers, Views.key_seen, Views.view_numbers};

use crate::bytes::push_bytes;
use crate::parts::{
    bool_code, int_code, mask_code, option_code, push_arguments, push_places, push_words,
    state_code,
};
use crate::queues::{caused_of, ready_of};
use closure::Fault;
use execlist::link::LinkSpace;
use execsim::{Call, Machine, MachineView, TaskView};
use script::Variable;
use std::alloc::Global;

/// How many tasks are looked at: one more than a machine has at most.
const MOST_TASKS: usize = 4_097;

/// Adds who runs, for how long, and which sources ask to be served.
fn push_head(view: &MachineView, numbers: &mut Vec<u64>) -> Result<(), Fault>
    ensures { OnOk result (numbers.new.items ≡ numbers.old.items ++ head_numbers view.now) }
{
    let running = option_code(view.running)?;
    numbers.extend_from_slice(&[
        running,
        u64::from(view.quantum_left),
        bool_code(view.latches.ports),
        bool_code(view.latches.vertb),
        bool_code(view.latches.exter),
    ])?;
    Ok(())
}

/// Adds the state, the priority, the signals, the nesting and the place of a task.
fn push_view(view: &TaskView, numbers: &mut Vec<u64>) -> Result<(), Fault>
    ensures { OnOk result (numbers.new.items ≡ numbers.old.items ++ view_numbers view.now) }
{
    numbers.extend_from_slice(&[
        state_code(view.state),
        mask_code(view.state),
        int_code(view.pri),
        u64::from(view.received),
        u64::from(view.allocated),
        int_code(view.forbids),
        int_code(view.disables),
        view.place as u64,
    ])?;
    Ok(())
}

/// Adds where an answer goes.
fn push_target(target: Option<Variable>, numbers: &mut Vec<u64>) -> Result<(), Fault>
    ensures { OnOk result (numbers.new.items ≡ numbers.old.items ++ target_numbers target) }
{
    let pair = match target {
        None => [0, 0],
        Some(Variable::Private(k)) => [1, u64::from(k)],
        Some(Variable::Shared(k)) => [2, u64::from(k)],
    };
    numbers.extend_from_slice(&pair)?;
    Ok(())
}

/// Adds a call that a task waits in.
fn push_call(call: &Call, numbers: &mut Vec<u64>) -> Result<(), Fault>
    ensures { OnOk result (numbers.new.items ≡ numbers.old.items ++ (1 ∷ (target_numbers call.now.target ++ (call.now.next ∷ call.now.awaited ∷ argument_numbers (call_view call.now).arguments)))) }
{
    numbers.push(1)?;
    push_target(call.target, numbers)?;
    numbers.extend_from_slice(&[call.next as u64, u64::from(call.awaited)])?;
    push_arguments(&call.quoted, call.shown(), numbers)?;
    Ok(())
}

/// Adds the call that a task waits in, if it does.
fn push_kept(call: Option<&Call>, numbers: &mut Vec<u64>) -> Result<(), Fault>
    ensures { OnOk result (numbers.new.items ≡ numbers.old.items ++ kept_numbers (option_map call_view (option_copied call.entry))) }
{
    match call {
        None => {
            numbers.push(0)?;
            Ok(())
        }
        Some(call) => push_call(call, numbers),
    }
}

/// Adds a task that the machine has.
fn push_task(
    machine: &Machine<LinkSpace>,
    t: usize,
    view: &TaskView,
    numbers: &mut Vec<u64>,
) -> Result<(), Fault>
    requires { task_seen t machine.now.seen ≡ Some view.now }
    ensures { OnOk result (numbers.new.items ≡ numbers.old.items ++ task_numbers t machine.now.seen.schedule machine.now.seen.scripts) }
{
    push_view(view, numbers)?;
    push_words(machine.variables(t), numbers)?;
    push_kept(machine.call(t), numbers)?;
    Ok(())
}

/// Adds all tasks.
fn push_tasks(machine: &Machine<LinkSpace>, numbers: &mut Vec<u64>) -> Result<(), Fault>
    ensures { OnOk result (numbers.new.items ≡ numbers.old.items ++ tasks_numbers (length machine.now.seen.scripts.programs) machine.now.seen.schedule machine.now.seen.scripts) }
{
    for t in 0..MOST_TASKS {
        let Some(view) = machine.task(t) else {
            return Ok(());
        };
        push_task(machine, t, &view, numbers)?;
    }
    Err(Fault::NoKey)
}

/// Adds the queues of ready tasks and of caused software interrupts.
fn push_queues(
    alloc: Global,
    machine: &Machine<LinkSpace>,
    numbers: &mut Vec<u64>,
) -> Result<(), Fault>
    ensures { OnOk result (numbers.new.items ≡ numbers.old.items ++ (list_numbers machine.now.seen.schedule.queue.ready ++ list_numbers machine.now.seen.pending.caused)) }
{
    let mut list = Vec::new(alloc);
    if !ready_of(machine, &mut list)? {
        return Err(Fault::NoKey);
    }
    push_places(list.as_slice(), numbers)?;
    if !caused_of(machine, &mut list)? {
        return Err(Fault::NoKey);
    }
    push_places(list.as_slice(), numbers)?;
    Ok(())
}

/// Adds all that distinguishes the state of a machine.
fn push_machine(
    alloc: Global,
    machine: &Machine<LinkSpace>,
    all: &mut Vec<u64>,
) -> Result<(), Fault>
    ensures { OnOk result (all.new.items ≡ all.old.items ++ numbers machine.now.seen.schedule machine.now.seen.scripts machine.now.seen.pending) }
{
    let view = machine.view();
    push_head(&view, all)?;
    push_queues(alloc, machine, all)?;
    push_words(machine.shared_variables(), all)?;
    push_tasks(machine, all)?;
    Ok(())
}

/// Leaves in `text` the key of the state of a machine.
///
/// # Errors
///
/// Memory was refused; or the machine has a call whose arguments have a name.
///
/// Source: project rule.
pub fn write_key(
    alloc: Global,
    machine: &Machine<LinkSpace>,
    text: &mut Vec<u8>,
) -> Result<(), Fault>
    ensures { OnOk result (text.new.items ≡ key_seen machine.now.seen) }
{
    let mut all = Vec::new(alloc);
    push_machine(alloc, machine, &mut all)?;
    text.clear();
    push_bytes(all.as_slice(), text)?;
    Ok(())
}
