//! The names of those that serve others: each is that of a task, a server or a software interrupt.
ghost use Rattle.std.specs.Prelude.{◌≡◌, ◌≢◌, [], IfErr};
ghost use Rattle.checker.specs.Failing.{IsUsage};

use crate::failure::Failure;
use escape::Shown;
use execadvice::nearest;
use script::MachineFile;
use std::alloc::{AllocError, Global};
use taskscript::read_machine;

/// The names of those that have a body.
fn names_in(alloc: Global, file: &MachineFile) -> Result<Vec<&str>, AllocError> {
    let mut names = Vec::new(alloc);
    for task in file.tasks() {
        names.push(task.name.as_str())?;
    }
    for server in file.servers() {
        names.push(server.name.as_str())?;
    }
    for softint in file.softints() {
        names.push(softint.name.as_str())?;
    }
    Ok(names)
}

/// What is said of a name that nobody has.
fn nobody(alloc: Global, name: &str, names: &[&str]) -> Result<String, AllocError> {
    let shown = Shown(name);
    let sentence = format!(in alloc;
        "--serves {shown}: no task, server or software interrupt of the machine file has that name"
    )?;
    match nearest(alloc, name, names)? {
        None => Ok(sentence),
        Some(near) => format!(in alloc; "{sentence}; did you mean {near}?"),
    }
}

/// What is said of the first of some names that nobody of a file has; none if each is somebody's.
fn first_unknown(
    alloc: Global,
    file: &MachineFile,
    serves: &[&str],
) -> Result<Option<String>, AllocError> {
    let names = names_in(alloc, file)?;
    for name in serves {
        if !names.contains(name) {
            return Ok(Some(nobody(alloc, *name, &names)?));
        }
    }
    Ok(None)
}

/// Refuses names that nobody of a file has, which is accepted.
fn check_file<'a>(alloc: Global, file: &MachineFile, serves: &[&str]) -> Result<(), Failure<'a>> {
    match first_unknown(alloc, file, serves)? {
        None => Ok(()),
        Some(sentence) => Err(Failure::Usage(sentence)),
    }
}

/// Refuses names that nobody of a machine file has. Of a file that is refused nothing is asked.
///
/// # Errors
///
/// `Usage` if a name is nobody's, and `NoMemory`.
pub fn check_names<'a>(alloc: Global, machine: &[u8], serves: &[&str]) -> Result<(), Failure<'a>>
    ensures { IfErr result (λ failure. IsUsage failure → serves.now ≢ []) }
{
    if serves.is_empty() {
        return Ok(());
    }
    match read_machine(alloc, machine) {
        Err(_) => Ok(()),
        Ok(file) => check_file(alloc, &file, serves),
    }
}
