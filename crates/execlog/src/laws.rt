//! What holds of all logs.
ghost use Rattle.execlog.specs.{Log.LogsTellTheTrace, Reading.RowsAreCutAtSpaces};

/// The texts of a log, one after another, are the trace of the run.
///
/// Source: project rule.
pub fn logs_tell_the_trace()
    ensures { LogsTellTheTrace }
{}

/// A row is cut at its spaces: its first words are its number, its time and the line of its command, if that is known,
/// however wide they are.
///
/// Source: project rule.
pub fn rows_are_cut_at_spaces()
    ensures { RowsAreCutAtSpaces }
{}
