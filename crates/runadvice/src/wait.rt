//! What a task waits for, as the machine shows it.
use crate::argument::owner_at;
use crate::scene::Linked;
use crate::step::TaskPlace;
use script::{PortWord, RequestWord, Word};
use std::alloc::{AllocError, Global};
use taskq::{TaskState, Why};

/// What a call waits for.
#[derive(Clone, Copy, PartialEq, Eq)]
pub enum Awaited {
    /// A signal of this mask.
    Signals(u32),
    /// A message at the port of this address.
    Message(u32),
    /// The semaphore of this address.
    Semaphore(u32),
    /// The request of this address.
    Request(u32),
}

/// A task that waits.
#[derive(Clone, Copy)]
pub struct Waiter {
    /// Its call.
    pub turn: TaskPlace,
    pub awaited: Awaited,
    /// The signals that it has received and does not wait for.
    pub received: u32,
}

/// What a call waits for that was made with this first argument.
fn awaited_by(word: Word, value: u32, why: Why) -> Awaited {
    match why {
        Why::Sem => Awaited::Semaphore(value),
        Why::Signals(mask) => match word {
            Word::Ports(PortWord::WaitPort) => Awaited::Message(value),
            Word::Requests(RequestWord::DoIO | RequestWord::WaitIO) => Awaited::Request(value),
            _ => Awaited::Signals(mask),
        },
    }
}

/// What a task waits for, if it does.
pub fn wait_of(machine: &Linked, task: usize) -> Option<Waiter> {
    let view = machine.task(task)?;
    let why = match view.state {
        TaskState::Waiting(why) => why,
        _ => return None,
    };
    let call = machine.call(task)?;
    Some(Waiter {
        turn: TaskPlace {
            task,
            place: view.place,
        },
        awaited: awaited_by(call.word, call.number(0), why),
        received: view.received,
    })
}

/// The semaphore's owner, if a task waits for one that is owned.
pub fn owner_awaited(machine: &Linked, task: usize) -> Option<usize> {
    match wait_of(machine, task)?.awaited {
        Awaited::Semaphore(address) => owner_at(machine, address),
        _ => None,
    }
}

/// The signals of a mask in words.
fn signals_text(alloc: Global, mask: u32) -> Result<String, AllocError> {
    if mask == 0 {
        return format!(in alloc; "no signal");
    }
    if mask.count_ones() == 1 {
        let number = mask.trailing_zeros();
        return format!(in alloc; "signal {number} (${mask:08X})");
    }
    format!(in alloc; "a signal of ${mask:08X}")
}

/// What a task waits for in words.
pub fn awaited_text(alloc: Global, awaited: Awaited) -> Result<String, AllocError> {
    match awaited {
        Awaited::Signals(mask) => signals_text(alloc, mask),
        Awaited::Message(address) => format!(in alloc; "a message at port ${address:08X}"),
        Awaited::Semaphore(address) => format!(in alloc; "semaphore ${address:08X}"),
        Awaited::Request(address) => format!(in alloc; "request ${address:08X}"),
    }
}
