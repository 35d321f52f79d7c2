//! Asks for memory in one way. After the word `allocate` an argument names a part of a machine, which is made once and
//! let go, or says `boot` or `run`, with a machine file and an event text after it. `boot` makes the machine, and `run`
//! makes it and runs it over the events. `.ci/allocations` refuses each allocation of each way in turn; `parts` prints
//! the names for it.
//!
//! Nothing is taken for the arguments: an allocation is one of the part, of the texts, of the machine or of the run.
use crate::part::{PARTS, Part, make};
use crate::unmade::Unmade;
use execlist::link::LinkSpace;
use execsim::{Machine, ReadFault, read_limited, simulate};
use exectrace::WriteSink;
use std::env::Env;
use std::fs;
use std::process::ExitCode;
use std::str::from_utf8;
use taskscript::{read_events, read_machine};

/// The longest argument, in bytes.
const LONGEST: usize = 256;

/// The word before what is asked for.
const WORD: &str = "allocate";

/// An argument of the process, which is in `room` then.
fn argument<'a>(rt: &HostRuntime, i: usize, room: &'a mut [u8; LONGEST]) -> Option<&'a str> {
    let Ok(length) = rt.arg(i, room.as_mut_slice()) else {
        return None;
    };
    from_utf8(room.get(..length)?).ok()
}

/// The bytes of the file that an argument names.
fn text_of(rt: &HostRuntime, i: usize) -> Result<Vec<u8>, Unmade> {
    let mut room = [0; LONGEST];
    let Some(path) = argument(rt, i, &mut room) else {
        return Err(Unmade::Wrong);
    };
    match fs::open(rt, path) {
        Ok(mut file) => Ok(read_limited(rt.alloc(), &mut file)?),
        Err(error) => Err(Unmade::from(ReadFault::from(error))),
    }
}

/// Makes the machine of a machine file, and reads an event text.
fn boot(rt: &HostRuntime) -> Result<(), Unmade> {
    let (machine, events) = (text_of(rt, 3)?, text_of(rt, 4)?);
    let file = read_machine(rt.alloc(), &machine)?;
    let _events = read_events(rt.alloc(), &events)?;
    let _machine: Machine<LinkSpace> = Machine::boot(rt.alloc(), &file)?;
    Ok(())
}

/// Makes the machine of a machine file, and runs it over an event text. The trace goes to standard output, which takes
/// no memory.
fn run(rt: &HostRuntime) -> Result<(), Unmade> {
    let (machine, events) = (text_of(rt, 3)?, text_of(rt, 4)?);
    let mut out = WriteSink::new(rt.stdout());
    let _end = simulate(rt.alloc(), &machine, &events, &mut out)?;
    Ok(())
}

/// Prints the names of the parts.
fn list_parts(rt: &HostRuntime) -> Result<(), Unmade> {
    for (name, _) in &PARTS {
        if println!(rt; "{name}").is_err() {
            return Err(Unmade::Wrong);
        }
    }
    Ok(())
}

/// Does what the argument after the word says.
fn asked(rt: &HostRuntime) -> Result<(), Unmade> {
    let mut room = [0; LONGEST];
    match argument(rt, 2, &mut room) {
        Some("boot") => boot(rt),
        Some("run") => run(rt),
        Some("parts") => list_parts(rt),
        Some(word) => match Part::named(word) {
            Some(part) => make(rt.alloc(), part),
            None => Err(Unmade::Wrong),
        },
        None => Err(Unmade::Wrong),
    }
}

/// Whether the first argument asks for allocations.
pub(crate) fn is_asked(rt: &HostRuntime) -> bool {
    let mut room = [0; LONGEST];
    argument(rt, 1, &mut room) == Some(WORD)
}

/// Makes what the arguments ask for. The status is 0 if it was made, 4 if memory was refused, and 1 if another fault
/// came or the words are none of these.
pub(crate) fn allocate(rt: &HostRuntime) -> ExitCode {
    match asked(rt) {
        Ok(()) => ExitCode::SUCCESS,
        Err(Unmade::NoMemory) => ExitCode::from(4),
        Err(Unmade::Wrong) => ExitCode::FAILURE,
    }
}
