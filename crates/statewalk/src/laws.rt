//! What a report of all states ensures of every run.
ghost use Rattle.statewalk.specs.Every.{NoAlertComes};

/// If a report says that the set of states is closed, and lists no alert, no list of events of these kinds ends in one,
/// however long it is.
///
/// Source: project rule.
#[tactic(auto, using(crate::proofs::Among::no_alert_comes))]
pub fn no_alert_comes()
    ensures { NoAlertComes }
{}
