//! A run that an alert has ended has no step after it.
ghost use Rattle.std.specs.Prelude.{IfErr};
ghost use Rattle.logger.specs.Failing.{IsAbsent};

use crate::failure::Failure;
use crate::options::{Options, View};
use logforms::{Run, alert_before};
use std::alloc::Global;

/// The first step that is asked for, with the option that gives it.
fn first_asked(options: &Options<'_>) -> Option<(&'static str, u64)> {
    match options.view {
        View::State(number) => Some(("--state", number)),
        _ => Some(("--from", options.from?)),
    }
}

/// What is said of a step that is after the alert of another.
fn past_alert<'a>(alloc: Global, option: &str, number: u64, step: u64) -> Failure<'a>
    ensures { IsAbsent result }
{
    let sentence = format!(in alloc;
        "{option} {number}: the alert of step {step} ended the run; give a number from 0 to {step}"
    );
    match sentence {
        Ok(sentence) => Failure::Absent(sentence),
        Err(_) => Failure::NoMemory,
    }
}

/// Refuses a first step that is after the alert that ended the run.
///
/// # Errors
///
/// `Absent` if an alert ended the run before it, and `NoMemory` if memory is refused.
pub fn check_first<'a>(alloc: Global, run: &Run, options: &Options<'_>) -> Result<(), Failure<'a>>
    ensures { IfErr result IsAbsent }
{
    let Some((option, number)) = first_asked(options) else {
        return Ok(());
    };
    match alert_before(alloc, run, number) {
        Err(_) => Err(Failure::NoMemory),
        Ok(None) => Ok(()),
        Ok(Some(step)) => Err(past_alert(alloc, option, number, step)),
    }
}
