//! A machine that is advanced answers how many steps after the first printed nothing.
use execlist::link::LinkSpace;
use execsim::Machine;
use exectrace::WriteSink;
use script::MachineFile;
use std::alloc::{AllocError, Global};
use std::test::*;
use taskscript::read_machine;

/// How many steps that print nothing a started machine does after each of its next two steps that may print; at most 5
/// each. None if a write fails.
fn silent_steps(alloc: Global, file: &MachineFile) -> Result<Option<(u32, u32)>, AllocError> {
    let mut machine: Machine<LinkSpace> = Machine::boot(alloc, file)?;
    let mut out = WriteSink::new(Vec::<u8>::new(alloc));
    match machine.start(&mut out) {
        Err(_) => Ok(None),
        Ok(_) => match machine.advance(5, &mut out) {
            Err(_) => Ok(None),
            Ok(first) => match machine.advance(5, &mut out) {
                Err(_) => Ok(None),
                Ok(second) => Ok(Some((first, second))),
            },
        },
    }
}

#[test]
fn silent_steps_are_counted(rt: HostRuntime) -> Result<(), Fail> {
    let file = read_machine(
        rt.alloc(),
        b"task = [{ name = 'a', code = ['Print 1', 'n = Set 1', 'Print 2'] }]",
    )?;
    assert!(rt; silent_steps(rt.alloc(), &file)? == Some((1, 0)));
    Ok(())
}
