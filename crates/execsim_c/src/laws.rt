//! What calls on a machine that C keeps come to, one after another, as laws: functions without effect.
ghost use Rattle.execsim_c.specs.Whole.{CallsDoInputs, CallsFollow, GrownMachinesAreWhole};

/// What `execsim_feed`, `execsim_add_task` and `execsim_events` do, one after another, is one list of what is done.
///
/// Project rule.
#[tactic(auto, using(crate::proofs::Whole::calls_do_inputs, crate::proofs::Whole::calls_follow))]
pub fn calls_follow()
    ensures calls { CallsDoInputs }
    ensures follow { CallsFollow }
{}

/// A machine that was opened, and whose lines were fed and tasks added in time, shows the end of the run of the machine
/// file that has them all, over the events that it did, and its lines are those of that run. In time is before a step
/// finds the task at the end of its body, and before an alert.
///
/// Project rule.
pub fn grown_machines_are_whole()
    ensures { GrownMachinesAreWhole }
{}
