//! Whether the words of a machine file touch its memory.
ghost use Rattle.std.specs.Prelude.{◌≡◌, All, map, true};
ghost use Rattle.script.specs.{Commands.command_view, File.ServerData, File.SoftintData, File.TaskData, Records.server_view, Records.softint_view, Records.task_view};
ghost use Rattle.statekeys.specs.{Fits.HasBareWord, Fits.is_bare, Runs.IsBareMachine};

use script::{Command, MachineFile, ServerRecord, SoftintRecord, TaskRecord, Word};

/// Whether a word neither asks for memory nor touches what lies in it.
pub(crate) fn is_bare_word(word: Word) -> bool
    ensures { result ≡ is_bare word }
{
    match word {
        Word::Plain(_)
        | Word::Signals(_)
        | Word::Nesting(_)
        | Word::Tasks(_)
        | Word::Interrupts(_) => true,
        _ => false,
    }
}

/// Whether each word of some commands is such a word.
fn is_bare_code(code: &[Command]) -> bool
    ensures { result ≡ true → All HasBareWord (map command_view code.now) }
{
    for command in code {
        if !is_bare_word(command.word) {
            return false;
        }
    }
    true
}

/// Whether each word of some tasks is.
fn are_bare_tasks(tasks: &[TaskRecord]) -> bool
    ensures { result ≡ true → All (λ (task : TaskData). All HasBareWord task.code) (map task_view tasks.now) }
{
    for task in tasks {
        if !is_bare_code(&task.code) {
            return false;
        }
    }
    true
}

/// Whether each word of some software interrupts is.
fn are_bare_softints(softints: &[SoftintRecord]) -> bool
    ensures { result ≡ true → All (λ (softint : SoftintData). All HasBareWord softint.code) (map softint_view softints.now) }
{
    for softint in softints {
        if !is_bare_code(&softint.code) {
            return false;
        }
    }
    true
}

/// Whether each word of some servers is.
fn are_bare_servers(servers: &[ServerRecord]) -> bool
    ensures { result ≡ true → All (λ (server : ServerData). All HasBareWord server.code) (map server_view servers.now) }
{
    for server in servers {
        if !is_bare_code(&server.code) {
            return false;
        }
    }
    true
}

/// Whether each word of a machine file neither asks for memory nor touches what lies in it. If the answer is true it is
/// so.
///
/// Source: project rule.
pub fn is_bare_machine(file: &MachineFile) -> bool
    ensures { result ≡ true → IsBareMachine file.now }
{
    are_bare_tasks(file.tasks())
        && are_bare_softints(file.softints())
        && are_bare_servers(file.servers())
}
