//! Laws of machines whose bodies grow while they run.
ghost use Rattle.execmodel.specs.Feeding.{StepsCommuteWithFeeding, OthersCommuteWithFeeding, AFedCommandIsNext, BodiesRunInParts, EventsCommuteWithNewTasks, FedMachinesRunAsWhole};

/// Feeding and running commute: if a step does not find task t at the end of its body, the step of a machine whose body
/// of t has one more command at its end is the step of the machine without it, and leaves that command at the end.
/// Ticks, requests and the start commute whatever the running task has left to do. A task at the end of its body makes
/// the call of the command that it is fed next.
///
/// Project rule.
#[tactic(auto, using(crate::proofs::FedRuns::steps_commute_with_feeding, crate::proofs::FedRuns::others_commute_with_feeding, crate::proofs::FedRuns::a_fed_command_is_next))]
pub fn feeding_commutes()
    ensures steps { StepsCommuteWithFeeding }
    ensures others { OthersCommuteWithFeeding }
    ensures next { AFedCommandIsNext }
{}

/// The body of an interrupt runs in parts as the whole of them: the commands that are known, and then those that
/// follow.
///
/// Project rule.
#[tactic(auto, using(crate::proofs::FedRuns::bodies_run_in_parts))]
pub fn bodies_run_in_parts()
    ensures { BodiesRunInParts }
{}

/// A new task changes nothing: in each state that a run comes to, an event of a machine with one more task, which was
/// never added, is the event of the machine without it, and leaves that task as it is, unless an alert stops the
/// machine in it.
///
/// Project rule.
#[tactic(auto, using(crate::proofs::FedRuns::events_commute_with_new_tasks))]
pub fn new_tasks_commute()
    ensures { EventsCommuteWithNewTasks }
{}

/// A machine whose bodies grow while it runs, and to which tasks are added, runs as the machine whose bodies are whole
/// and whose tasks are all there from the start: the same state, lines and marks after the same events. That holds if
/// no step finds a task at the end of its body that is fed later, and if what is added is a task that does not start
/// with the machine, as long as no alert has stopped that.
///
/// Project rule.
#[tactic(auto, using(crate::proofs::FedRuns::fed_machines_run_as_whole))]
pub fn fed_machines_run_as_whole()
    ensures { FedMachinesRunAsWhole }
{}
