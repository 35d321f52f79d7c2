//! A machine is reset by the file that it was made of, and by no smaller one.
use execlist::link::LinkSpace;
use execsim::Machine;
use script::MachineFile;
use std::alloc::{AllocError, Global};
use std::test::*;
use taskscript::read_machine;

/// Whether a machine of one file can be reset by another.
fn is_reset_by(alloc: Global, made_of: &MachineFile, by: &MachineFile) -> Result<bool, AllocError> {
    let mut machine: Machine<LinkSpace> = Machine::boot(alloc, made_of)?;
    Ok(machine.reset(by))
}

#[test]
fn a_machine_is_reset_by_its_own_file_alone(rt: HostRuntime) -> Result<(), Fail> {
    let one = read_machine(rt.alloc(), b"task = [{ name = 'a', code = ['Print 1'] }]")?;
    let none = read_machine(rt.alloc(), b"task = [{ name = 'a', code = [] }]")?;
    assert!(rt; is_reset_by(rt.alloc(), &one, &one)?);
    assert!(rt; !is_reset_by(rt.alloc(), &one, &none)?);
    Ok(())
}
