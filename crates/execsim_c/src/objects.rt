//! What C reads of requests and of the messages of ports, of a machine that it keeps. Nothing of the machine changes.
ghost use Rattle.std.specs.Prelude.{◌≡◌, None, Some, option_map, option_and_then};
ghost use Rattle.iorequest.specs.declared.request.Request.{Request};
ghost use Rattle.execheap.specs.declared.view.BlockView.{BlockView};
ghost use Rattle.execsim_c.specs.{Handles.Sees, Objects.address_asked, Objects.address_shown, Objects.next_message, Objects.request_in, Objects.request_seen, Objects.request_shown, Objects.request_state_shown, Objects.unit_shown};

use crate::handle::MachineHandle;
use crate::status::{NO_MACHINE, NOT_THERE, RAN};
use execheap::{BlockView, ObjectView};
use iorequest::request::{ReqState, Request};
use std::alloc::Global;

/// What is shown of no unit.
const NO_UNIT: u32 = u32::MAX;

/// What is shown of a timer request.
#[repr(C)]
#[derive(Clone, Copy)]
pub struct RequestShown {
    /// The address of its reply port.
    pub reply_port: u32,
    /// 0 if it was never begun, 1 if it is in progress, 2 if it was finished at once, 3 if it was replied.
    pub state: u32,
    /// The unit that it is open for, or `NO_UNIT`.
    pub unit: u32,
    /// Its command.
    pub command: u32,
    /// The seconds of its time.
    pub seconds: u32,
    /// The microseconds of its time.
    pub micros: u32,
    /// 0, or why it failed.
    pub error: i32,
    /// 1 if bit 0 of its flags, IOF_QUICK, is set, and 0 otherwise.
    pub quick: u32,
}

/// The number of a request's state.
fn state_of(state: ReqState) -> u32
    ensures { result ≡ request_state_shown state }
{
    match state {
        ReqState::Idle => 0,
        ReqState::UnderWay => 1,
        ReqState::Quick => 2,
        ReqState::Replied => 3,
    }
}

/// The number of the unit that a request is open for, or `NO_UNIT`.
fn unit_of(unit: Option<u32>) -> u32
    ensures { result ≡ unit_shown unit }
{
    match unit {
        None => NO_UNIT,
        Some(unit) => unit,
    }
}

/// What is shown of a request.
fn request_of(request: &Request) -> RequestShown
    ensures { result ≡ request_shown request.now }
{
    RequestShown {
        reply_port: request.port,
        state: state_of(request.state),
        unit: unit_of(request.unit),
        command: u32::from(request.command),
        seconds: request.secs,
        micros: request.micros,
        error: i32::from(request.error),
        quick: u32::from(request.quick),
    }
}

/// What is shown of the request at a block, if it is one.
fn shown_in(block: Option<BlockView>) -> Option<RequestShown>
    ensures { result ≡ option_map request_shown (option_and_then (λ (view : BlockView). request_in view.object) block) }
{
    match block?.object {
        ObjectView::Request(request) => Some(request_of(&request)),
        _ => None,
    }
}

/// Puts what is seen of the timer request that begins at an address in `view`.
///
/// 0 if it is there, 7 if no request begins there, and 6 if the handle has no machine.
///
/// Source: RKM Devices, Timer Device: `timerequest`.
#[unsafe(no_mangle)]
pub extern "C" fn execsim_request(
    alloc: Global,
    handle: &mut MachineHandle,
    address: u32,
    view: &mut RequestShown,
) -> u32
    ensures shown { result ≡ 0 → Sees handle.old.session handle.new.session (λ m. option_map request_shown (request_seen address m.seen) ≡ Some view.new) }
    ensures none { result ≡ 7 → Sees handle.old.session handle.new.session (λ m. option_map request_shown (request_seen address m.seen) ≡ None) }
    ensures same { handle.new.session ≡ handle.old.session }
{
    let session = match handle.take(alloc) {
        Some(session) => session,
        None => return NO_MACHINE,
    };
    let found = shown_in(session.machine.block(address));
    handle.put(session);
    match found {
        Some(request) => {
            *view = request;
            RAN
        }
        None => NOT_THERE,
    }
}

/// The message that an address names, none for 0.
fn asked(address: u32) -> Option<u32>
    ensures { result ≡ address_asked address }
{
    if address == 0 { None } else { Some(address) }
}

/// The address of a message, 0 for none.
fn address_of(message: Option<u32>) -> u32
    ensures { result ≡ address_shown message }
{
    match message {
        None => 0,
        Some(address) => address,
    }
}

/// Puts the address of the message, or of the request, after `after` in the port that begins at an address in
/// `message`, or of the first one if `after` is 0, in order of arrival: 0 at the end, and if there is no such port or
/// it does not have `after`.
///
/// 0 if it is there, and 6 if the handle has no machine.
///
/// Source: RKM Libraries, Exec Messages and Ports: `mp_MsgList`.
#[unsafe(no_mangle)]
pub extern "C" fn execsim_message(
    alloc: Global,
    handle: &mut MachineHandle,
    port: u32,
    after: u32,
    message: &mut u32,
) -> u32
    ensures shown { result ≡ 0 → Sees handle.old.session handle.new.session (λ m. message.new ≡ address_shown (next_message port after m.seen)) }
    ensures same { handle.new.session ≡ handle.old.session }
{
    let session = match handle.take(alloc) {
        Some(session) => session,
        None => return NO_MACHINE,
    };
    *message = address_of(session.machine.message_after(port, asked(after)));
    handle.put(session);
    RAN
}
