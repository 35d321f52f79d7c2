//! Which rows of a log are shown.
ghost use Rattle.std.specs.Prelude.{◌≡◌, true};
ghost use Rattle.execlog.specs.Books.{ShowsAll};

use crate::cursor::Spot;

/// Who acts.
#[derive(Clone, Copy)]
pub enum Who {
    /// The task of a number from 0.
    Task(usize),
    /// The software interrupt or the server of a number among both.
    Interrupt(usize),
}

/// Which rows of a log are shown.
#[derive(Clone, Copy)]
pub struct Filter {
    /// The number of the first step, tick or request.
    pub from: u64,
    /// The line of the file, if only rows of one line are.
    pub at: Option<u32>,
    /// Who acts, if only rows of one are.
    pub by: Option<Who>,
}

/// Whether a row is that of an action of one who acts.
fn is_by(who: Who, spot: Spot) -> bool {
    match (who, spot) {
        (Who::Task(task), Spot::Task(other, _)) => task == other,
        (Who::Interrupt(number), Spot::Interrupt(other, _)) => number == other,
        _ => false,
    }
}

impl Filter {
    /// All rows are shown.
    pub const ALL: Filter = Filter {
        from: 0,
        at: None,
        by: None,
    };

    /// Whether a row is shown: that of an action at a line of the file, in an entry of that number.
    ///
    /// Source: project rule.
    #[inline(always)]
    pub fn shows(&self, number: u64, line: Option<u32>, spot: Spot) -> bool
        ensures { ShowsAll self.now → result ≡ true }
    {
        if number < self.from {
            return false;
        }
        if self.at.is_some() && self.at != line {
            return false;
        }
        match self.by {
            None => true,
            Some(who) => is_by(who, spot),
        }
    }
}
