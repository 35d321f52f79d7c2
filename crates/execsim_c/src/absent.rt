//! What is said if a run or a search does not have what a caller asks for: as the commands say it, but each number is
//! called what `execsim.h` calls it.

use execpicture::PictureFault;
use logger::Options;
use std::fmt;

/// Why a part of a run is not shown.
#[derive(Drop)]
pub(crate) enum Unshown {
    /// What the command says of it too.
    Failed(logger::Failure<'static>),
    /// The number that a caller gives by this name is that of a step after the last one, whose number follows.
    AfterEnd(&'static str, u64, u64),
    /// The first step is after the last one that is asked for.
    Backwards(u64, u64),
}

impl From<logger::Failure<'static>> for Unshown {
    fn from(failure: logger::Failure<'static>) -> Self {
        Unshown::Failed(failure)
    }
}

/// Judges the number of a step, which a caller gives by a name, by the last step of the run.
///
/// # Errors
///
/// `AfterEnd` if the run ends before it.
pub(crate) fn within(name: &'static str, number: u64, last: u64) -> Result<(), Unshown> {
    if number > last {
        return Err(Unshown::AfterEnd(name, number, last));
    }
    Ok(())
}

/// Judges the numbers of the first and the last step that are asked for by the last step of the run.
///
/// # Errors
///
/// `AfterEnd` if the run ends before one of them, and `Backwards` if the first is after the last.
pub(crate) fn part_within(options: &Options<'_>, last: u64) -> Result<(), Unshown> {
    let from = options.from.unwrap_or(0);
    let to = options.to.unwrap_or(last);
    within("from", from, last)?;
    within("to", to, last)?;
    if from > to {
        return Err(Unshown::Backwards(from, to));
    }
    Ok(())
}

/// Writes why there is no picture.
fn show_picture_fault<W: fmt::Write>(
    fault: PictureFault,
    f: &mut fmt::Formatter<W>,
) -> fmt::Result {
    match fault {
        PictureFault::TooLong(count) => write!(
            f,
            "a picture shows at most 200 steps, ticks and requests, and this part of the run has {count}: choose a part of it, as with from 0 to 200"
        ),
        PictureFault::PastEnd(last) => {
            write!(
                f,
                "the run is over after number {last}: choose a smaller number for from"
            )
        }
        PictureFault::Empty => {
            f.write_str("this part of the run is empty: to has to be greater than from")
        }
        _ => write!(f, "{fault}"),
    }
}

/// What is said of a part of a run that is not shown.
impl fmt::Display for Unshown {
    fn fmt<W: fmt::Write>(&self, f: &mut fmt::Formatter<W>) -> fmt::Result {
        match self {
            Unshown::Failed(logger::Failure::Picture(fault)) => show_picture_fault(*fault, f),
            Unshown::Failed(failure) => write!(f, "{failure}"),
            Unshown::AfterEnd(name, number, last) => write!(
                f,
                "{name} {number}: the run ends with step {last}; give a number from 0 to {last}, or add events"
            ),
            Unshown::Backwards(from, to) => write!(
                f,
                "from {from} is after to {to}; give a from that is not greater than to"
            ),
        }
    }
}

/// Why a search has no answer.
#[derive(Clone, Copy)]
pub(crate) struct Unanswered<'a>(pub &'a execexplore::Failure<'a>);

/// What is said of a search that has no answer.
impl fmt::Display for Unanswered<'_> {
    fn fmt<W: fmt::Write>(&self, f: &mut fmt::Formatter<W>) -> fmt::Result {
        match self.0 {
            execexplore::Failure::NoOutcome(number, 1) => {
                write!(f, "outcome {number}: there is 1 outcome")
            }
            execexplore::Failure::NoOutcome(number, outcomes) => {
                write!(f, "outcome {number}: there are {outcomes} outcomes")
            }
            execexplore::Failure::TooManyOutcomes => f.write_str(
                "there are more than 65536 outcomes; ask for fewer extras, or for see 1 (the prints) or 0 (the end)",
            ),
            failure => write!(f, "{failure}"),
        }
    }
}
