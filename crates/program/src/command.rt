//! The commands of the program, and the names by which they are called.
ghost use Rattle.std.specs.Prelude.{◌≡◌, eqb};
ghost use Rattle.std.specs.List.{ends_with};
ghost use Rattle.program.specs.Names.{command_named};

/// A command of the program.
#[derive(Clone, Copy)]
pub enum Command {
    /// Simulates a machine, and prints the trace of its run.
    Execsim,
    /// Says what is wrong with the texts of a run.
    Execcheck,
    /// Runs every way in which interrupts can come among the events of a run.
    Execexplore,
    /// Prints the trace of a run with the step, the time and the place of each line, or what the machine shows.
    Execlog,
}

impl Command {
    /// The name by which it is called.
    ///
    /// Source: project rule.
    pub fn name(self) -> &'static str {
        match self {
            Command::Execsim => "execsim",
            Command::Execcheck => "execcheck",
            Command::Execexplore => "execexplore",
            Command::Execlog => "execlog",
        }
    }

    /// Whether it prints its version if that is asked for: all but `execsim`, whose words are paths.
    ///
    /// Source: project rule.
    pub fn takes_version(self) -> bool {
        match self {
            Command::Execsim => false,
            Command::Execcheck | Command::Execexplore | Command::Execlog => true,
        }
    }
}

/// Whether a path ends so.
fn ends_in(path: &[u8], end: &str) -> bool
    ensures { result ≡ ends_with eqb path.now end.now }
{
    path.ends_with(end.as_bytes())
}

/// The command that is called by a path, which is given with a '/' before it, so that its last part comes after one. A
/// program that no release has named has the name of its crate, and is `execsim`.
///
/// Source: project rule.
#[tactic(auto, unfolding(crate::specs::Names::command_named))]
pub fn command_called(path: &[u8]) -> Option<Command>
    ensures { result ≡ command_named path.now }
{
    if ends_in(path, "/execsim") {
        Some(Command::Execsim)
    } else if ends_in(path, "/program") {
        Some(Command::Execsim)
    } else if ends_in(path, "/execcheck") {
        Some(Command::Execcheck)
    } else if ends_in(path, "/execexplore") {
        Some(Command::Execexplore)
    } else if ends_in(path, "/execlog") {
        Some(Command::Execlog)
    } else {
        None
    }
}
