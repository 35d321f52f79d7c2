//! What C reads of a machine that it keeps, between any two calls. Nothing of the machine changes.
ghost use Rattle.std.specs.Prelude.{◌≡◌, None, Some, option_map};
ghost use Rattle.execsim.specs.Readers.{machine_view, task_seen};
ghost use Rattle.execsim_c.specs.{Handles.Sees, Shown.machine_shown, Shown.task_shown};

use crate::handle::MachineHandle;
use crate::put::hand_over;
use crate::shown::{BlockShown, MachineShown, TaskShown, block_of, machine_of, task_of};
use crate::status::{NO_MACHINE, NOT_THERE, RAN};
use std::alloc::Global;

/// Puts what is seen of the machine beside its tasks and its memory in `view`.
///
/// 0 if it is there, and 6 if the handle has no machine.
///
/// Source: RKM Libraries, Exec Tasks and Exec Interrupts; RKM Devices, timer device.
#[unsafe(no_mangle)]
pub extern "C" fn execsim_view(
    alloc: Global,
    handle: &mut MachineHandle,
    view: &mut MachineShown,
) -> u32
    ensures shown { result ≡ 0 → Sees handle.old.session handle.new.session (λ m. view.new ≡ machine_shown (machine_view m.seen)) }
    ensures same { handle.new.session ≡ handle.old.session }
{
    let session = match handle.take(alloc) {
        Some(session) => session,
        None => return NO_MACHINE,
    };
    *view = machine_of(session.machine.view());
    handle.put(session);
    RAN
}

/// Puts what is seen of a task, by its number from 0 in the order of the file, in `view`.
///
/// 0 if it is there, 7 if there is no such task, and 6 if the handle has no machine.
///
/// Source: RKM Libraries, Exec Tasks: `struct Task`.
#[unsafe(no_mangle)]
pub extern "C" fn execsim_task(
    alloc: Global,
    handle: &mut MachineHandle,
    number: usize,
    view: &mut TaskShown,
) -> u32
    ensures shown { result ≡ 0 → Sees handle.old.session handle.new.session (λ m. option_map task_shown (task_seen number m.seen) ≡ Some view.new) }
    ensures none { result ≡ 7 → Sees handle.old.session handle.new.session (λ m. task_seen number m.seen ≡ None) }
    ensures same { handle.new.session ≡ handle.old.session }
{
    let session = match handle.take(alloc) {
        Some(session) => session,
        None => return NO_MACHINE,
    };
    let found = session.machine.task(number);
    handle.put(session);
    match found {
        Some(task) => {
            *view = task_of(task);
            RAN
        }
        None => NOT_THERE,
    }
}

/// Puts the name of a task, by its number from 0 in the order of the file, at the front of `out`, and its length in
/// bytes in `length`.
///
/// 0 if it is there, 5 if it is longer than `out`, which is left alone then, 7 if there is no such task, and 6 if the
/// handle has no machine.
///
/// Source: RKM Libraries, Exec Tasks: `ln_Name`.
#[unsafe(no_mangle)]
pub extern "C" fn execsim_task_name(
    alloc: Global,
    handle: &mut MachineHandle,
    number: usize,
    out: &mut [u8],
    length: &mut u64,
) -> u32
    ensures same { handle.new.session ≡ handle.old.session }
{
    let session = match handle.take(alloc) {
        Some(session) => session,
        None => return NO_MACHINE,
    };
    let status = match session.machine.task_name(number) {
        Some(name) => hand_over(name.as_bytes(), RAN, out, length),
        None => NOT_THERE,
    };
    handle.put(session);
    status
}

/// Puts what is seen of the block that begins at an address, and of the object in it, in `view`.
///
/// 0 if it is there, 7 if no block begins there, and 6 if the handle has no machine.
///
/// Source: RKM Libraries, Exec Memory Allocation; project rule: Exec keeps no kinds of objects.
#[unsafe(no_mangle)]
pub extern "C" fn execsim_block(
    alloc: Global,
    handle: &mut MachineHandle,
    address: u32,
    view: &mut BlockShown,
) -> u32
    ensures same { handle.new.session ≡ handle.old.session }
{
    let session = match handle.take(alloc) {
        Some(session) => session,
        None => return NO_MACHINE,
    };
    let found = session.machine.block(address);
    handle.put(session);
    match found {
        Some(block) => {
            *view = block_of(block);
            RAN
        }
        None => NOT_THERE,
    }
}
