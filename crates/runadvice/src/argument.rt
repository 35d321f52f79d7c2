//! Values, what they name, counts and lists of names, in words.
use crate::scene::Linked;
use execsim::{ObjectView, PortView};
use iorequest::request::Request;
use std::alloc::{AllocError, Global};

/// The least word that is read as a negative number of 16 bits.
const LEAST_NEGATIVE: u32 = 0xFFFF_7FFF;

/// A value as a reader knows it: small ones in base 10, negative ones with their sign, others as the trace prints them.
pub fn shown(alloc: Global, value: u32) -> Result<String, AllocError> {
    if value >= LEAST_NEGATIVE {
        let size = (!value).saturating_add(1);
        return format!(in alloc; "-{size}");
    }
    if value < 1000 {
        format!(in alloc; "{value}")
    } else {
        format!(in alloc; "${value:08X}")
    }
}

/// What an object is.
pub fn kind_of(object: ObjectView) -> &'static str {
    match object {
        ObjectView::Plain => "a block of AllocMem",
        ObjectView::List => "a list",
        ObjectView::Node(_) => "a node",
        ObjectView::Port(_) => "a port",
        ObjectView::Message(_) => "a message",
        ObjectView::Semaphore(_) => "a semaphore",
        ObjectView::Library(_) => "the base of a library",
        ObjectView::Request(_) => "a timer request",
    }
}

/// What begins at an address, if a block does.
pub fn object_at(machine: &Linked, address: u32) -> Option<ObjectView> {
    Some(machine.block(address)?.object)
}

/// The port at an address.
pub fn port_at(machine: &Linked, address: u32) -> Option<PortView> {
    match object_at(machine, address) {
        Some(ObjectView::Port(port)) => Some(port),
        _ => None,
    }
}

/// The request at an address.
pub fn request_at(machine: &Linked, address: u32) -> Option<Request> {
    match object_at(machine, address) {
        Some(ObjectView::Request(request)) => Some(request),
        _ => None,
    }
}

/// The owner of the semaphore at an address, if it has one.
pub fn owner_at(machine: &Linked, address: u32) -> Option<usize> {
    match object_at(machine, address) {
        Some(ObjectView::Semaphore(semaphore)) => semaphore.owner,
        _ => None,
    }
}

/// A number with a comma between its thousands.
pub fn grouped(alloc: Global, number: u64) -> Result<String, AllocError> {
    let digits = format!(in alloc; "{number}")?;
    let count = digits.len();
    let mut text = String::new(alloc);
    for (i, digit) in digits.as_str().chars().enumerate() {
        if i > 0 && count.saturating_sub(i) % 3 == 0 {
            text.push_str(",")?;
        }
        text.push(digit)?;
    }
    Ok(text)
}

/// A count of some unit, whose plural ends in `s`.
pub fn counted(alloc: Global, count: u64, unit: &str) -> Result<String, AllocError> {
    let number = grouped(alloc, count)?;
    let ending = if count == 1 { "" } else { "s" };
    format!(in alloc; "{number} {unit}{ending}")
}

/// Some names with commas between them, and `last` before the last one.
pub fn joined(alloc: Global, names: &[String], last: &str) -> Result<String, AllocError> {
    let mut text = String::new(alloc);
    for (i, name) in names.iter().enumerate() {
        if i > 0 {
            text.push_str(if i + 1 == names.len() { last } else { ", " })?;
        }
        text.push_str(name.as_str())?;
    }
    Ok(text)
}
