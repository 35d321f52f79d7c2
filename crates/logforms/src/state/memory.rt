//! What a machine shows of its memory: the blocks and the gaps of each region, in order of address.

use super::Known;
use super::objects::push_object;
use crate::page::Page;
use crate::values::{push_number, push_signed, push_word};
use execlist::space::ListSpace;
use execsim::Machine;
use memlist::Region;

/// The least size of a block or a gap.
const GRAIN: u32 = 8;

/// Adds the head of a region.
fn push_head(page: &mut Page, k: usize, region: &Region) {
    page.push_str("\nregion ");
    push_number(page, (k as u64).saturating_add(1));
    page.push_str(": ");
    push_number(page, u64::from(region.size));
    page.push_str(" bytes from ");
    push_word(page, region.base);
    page.push_str(" on, attributes ");
    push_word(page, region.attrs);
    page.push_str(", priority ");
    push_signed(page, i64::from(region.pri));
    page.push_str("\n");
}

/// Adds what is before the words of a block or a gap.
fn push_front(page: &mut Page, address: u32, size: u32) {
    page.push_str("  ");
    push_word(page, address);
    let mut digits = itoa::Buffer::new();
    let text = digits.format(size);
    for _space in text.len()..9 {
        page.push_str(" ");
    }
    page.push_str(text);
    page.push_str("  ");
}

/// Adds the block that begins at an address of a region, or else the next gap, and answers how many bytes it takes from
/// the address on; none if neither is there.
fn push_at<S: ListSpace>(
    page: &mut Page,
    machine: &Machine<S>,
    known: &Known<'_>,
    k: usize,
    address: u32,
) -> Option<u32> {
    if let Some(block) = machine.block(address) {
        push_front(page, address, block.size);
        push_object(page, machine, known, address, &block.object);
        page.push_str("\n");
        return Some(block.size);
    }
    match machine.gap_from(k, address) {
        None => None,
        Some(gap) => {
            push_front(page, gap.address, gap.size);
            page.push_str("free\n");
            Some(gap.size.saturating_add(gap.address.saturating_sub(address)))
        }
    }
}

/// Adds the blocks and the gaps of a region.
fn push_map<S: ListSpace>(
    page: &mut Page,
    machine: &Machine<S>,
    known: &Known<'_>,
    k: usize,
    region: &Region,
) {
    let end = region.base.saturating_add(region.size);
    let mut address = region.base;
    for _part in 0..region.size / GRAIN {
        if address >= end {
            return;
        }
        match push_at(page, machine, known, k, address) {
            None => return,
            Some(size) => address = address.saturating_add(size),
        }
    }
}

/// Adds what a machine shows of its memory.
///
/// Source: project rule.
pub fn push_memory<S: ListSpace>(page: &mut Page, machine: &Machine<S>, known: &Known<'_>) {
    for k in 0..known.run.listed.machine.regions().len() {
        if let Some(region) = machine.region(k) {
            push_head(page, k, &region);
            push_map(page, machine, known, k, &region);
        }
    }
}
