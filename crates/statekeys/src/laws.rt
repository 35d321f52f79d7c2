//! Laws of every run of a machine whose words do not touch its memory: plain words, and words of signals, of nesting,
//! of tasks and of interrupts.
ghost use Rattle.statekeys.specs.Laws.{KeysTellStates, TheClockIsUnseen};

/// Nothing that a run does depends on what the clock shows: in any state of any run, with any other cleared memory in
/// its place, its clock and system time among it, an event prints the same lines and comes to the same state, but for
/// the memory.
///
/// Source: project rule.
#[tactic(auto, using(crate::proofs::Runs::the_clock_is_unseen))]
pub fn the_clock_is_unseen()
    ensures { TheClockIsUnseen }
{}

/// Two states of runs of one machine that no alert has stopped, and that have one key, are the same but for the memory.
/// The key has who runs, what is left of the quantum, what is pending, what each task is about, and all variables; not
/// the clock.
///
/// Source: project rule.
#[tactic(auto, using(crate::proofs::Runs::keys_tell_states))]
pub fn keys_tell_states()
    ensures { KeysTellStates }
{}
