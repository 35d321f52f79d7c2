//! A task is fed a command when it is at the end of its body, and goes on with it.
use execlist::link::LinkSpace;
use execsim::Machine;
use exectrace::WriteSink;
use script::{Command, Event, MachineFile};
use std::alloc::{AllocError, Global};
use std::test::*;
use taskscript::{read_fed, read_machine};

/// What a started machine writes up to its first step, before which its first task is fed a command, and which task is
/// at the end of its body before that and after it. None if a write fails.
fn fed(
    alloc: Global,
    file: &MachineFile,
    command: Command,
) -> Result<Option<(Vec<u8>, Option<usize>, Option<usize>)>, AllocError> {
    let mut machine: Machine<LinkSpace> = Machine::boot(alloc, file)?;
    let mut out = WriteSink::new(Vec::<u8>::new(alloc));
    match machine.start(&mut out) {
        Err(_) => Ok(None),
        Ok(_) => {
            let before = machine.at_end();
            machine.feed(0, command)?;
            let after = machine.at_end();
            match machine.event(Event::Run(1), &mut out) {
                Err(_) => Ok(None),
                Ok(_) => Ok(Some((out.into_inner(), before, after))),
            }
        }
    }
}

#[test]
fn a_command_that_is_fed_runs(rt: HostRuntime) -> Result<(), Fail> {
    let alloc = rt.alloc();
    let file = read_machine(alloc, b"task = [{ name = 'a', code = [] }]")?;
    let command = read_fed(alloc, "Print 1")?;
    let (trace, before, after) = fed(alloc, &file, command)?.expect(&rt, "the lines are written");
    assert!(rt; trace.as_slice() == b"switch a\na Print $00000001\n".as_slice());
    assert!(rt; before == Some(0) && after == None);
    Ok(())
}
