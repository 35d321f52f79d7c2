//! The blocks of a machine's memory, and what is in them.
use crate::scene::Linked;
use execsim::{BlockView, ObjectView};
use iorequest::request::Request;
use std::alloc::{AllocError, Global};

/// How many regions a machine has at most.
const REGIONS: usize = 8;

/// The least size of a block or a gap.
const GRAIN: u32 = 8;

/// How many messages, requests or nodes a queue has at most, and one more.
pub const QUEUE: usize = 2049;

/// A block of memory.
#[derive(Clone, Copy, Debug)]
pub struct Block {
    pub address: u32,
    pub view: BlockView,
}

impl Block {
    /// The request in it, if one is in it and is in progress.
    pub fn request_in_progress(&self) -> Option<Request> {
        match self.view.object {
            ObjectView::Request(request) if request.is_under_way() => Some(request),
            _ => None,
        }
    }
}

/// Adds the blocks of a region.
fn push_blocks(
    blocks: &mut Vec<Block>,
    machine: &Linked,
    base: u32,
    size: u32,
) -> Result<(), AllocError> {
    let end = base.saturating_add(size);
    let mut address = base;
    for _grain in 0..size / GRAIN {
        if address >= end {
            break;
        }
        match machine.block(address) {
            None => address = address.saturating_add(GRAIN),
            Some(view) => {
                blocks.push(Block { address, view })?;
                address = address.saturating_add(view.size.max(GRAIN));
            }
        }
    }
    Ok(())
}

/// All blocks of a machine's memory.
pub fn blocks_of(alloc: Global, machine: &Linked) -> Result<Vec<Block>, AllocError> {
    let mut blocks = Vec::new(alloc);
    for k in 0..REGIONS {
        if let Some(region) = machine.region(k) {
            push_blocks(&mut blocks, machine, region.base, region.size)?;
        }
    }
    Ok(blocks)
}

/// What is in a queue in which each is found after the one before it, at most that many.
pub fn queued<T: Copy, F: Fn(Option<T>) -> Option<T>>(
    alloc: Global,
    most: usize,
    after: F,
) -> Result<Vec<T>, AllocError>
    requires { F.IsAlwaysCallable after }
{
    let mut all = Vec::new(alloc);
    let mut next = after(None);
    for _turn in 0..most {
        if let Some(one) = next {
            all.push(one)?;
            next = after(Some(one));
        }
    }
    Ok(all)
}

/// The nodes of a list.
pub fn nodes_of(alloc: Global, machine: &Linked, list: u32) -> Result<Vec<u32>, AllocError> {
    queued(alloc, QUEUE, |at| machine.node_after(list, at))
}

/// The list that a node is in.
pub fn list_with(alloc: Global, machine: &Linked, node: u32) -> Result<Option<u32>, AllocError> {
    for block in blocks_of(alloc, machine)?.iter() {
        let nodes = nodes_of(alloc, machine, block.address)?;
        if nodes.iter().any(|one| *one == node) {
            return Ok(Some(block.address));
        }
    }
    Ok(None)
}

/// The request in progress that is to be replied to a port.
pub fn request_for(alloc: Global, machine: &Linked, port: u32) -> Result<Option<u32>, AllocError> {
    for block in blocks_of(alloc, machine)?.iter() {
        if block
            .request_in_progress()
            .is_some_and(|request| request.port == port)
        {
            return Ok(Some(block.address));
        }
    }
    Ok(None)
}

/// The block that an address is in, but does not begin.
pub fn block_around(
    alloc: Global,
    machine: &Linked,
    address: u32,
) -> Result<Option<Block>, AllocError> {
    for block in blocks_of(alloc, machine)?.iter() {
        let end = block.address.saturating_add(block.view.size);
        if block.address < address && address < end {
            return Ok(Some(*block));
        }
    }
    Ok(None)
}
