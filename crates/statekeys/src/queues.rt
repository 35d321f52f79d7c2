//! The queues of a machine as lists.
ghost use Rattle.std.specs.Prelude.{◌≡◌, true, IfOk};

use closure::Fault;
use execlist::link::LinkSpace;
use execsim::Machine;

/// How many steps a walk over a queue has at most: one more than a queue has places.
const MOST_STEPS: u32 = 4_097;

/// Leaves in `list` the ready tasks in the order in which they are to run, and answers whether it could.
pub fn ready_of(machine: &Machine<LinkSpace>, list: &mut Vec<usize>) -> Result<bool, Fault>
    ensures { IfOk result (λ yes. yes ≡ true → list.new.items ≡ machine.now.seen.schedule.queue.ready) }
{
    list.clear();
    let mut after = None;
    for round in 0..MOST_STEPS {
        let Some(t) = machine.ready_after(after) else {
            return Ok(true);
        };
        if list.contains(&t) {
            return Ok(false);
        }
        list.push(t)?;
        after = Some(t);
    }
    Ok(false)
}

/// Leaves in `list` the caused software interrupts in the order in which they are to run, and answers whether it could.
pub fn caused_of(machine: &Machine<LinkSpace>, list: &mut Vec<usize>) -> Result<bool, Fault>
    ensures { IfOk result (λ yes. yes ≡ true → list.new.items ≡ machine.now.seen.pending.caused) }
{
    list.clear();
    let mut after = None;
    for round in 0..MOST_STEPS {
        let Some(i) = machine.caused_after(after) else {
            return Ok(true);
        };
        if list.contains(&i) {
            return Ok(false);
        }
        list.push(i)?;
        after = Some(i);
    }
    Ok(false)
}
