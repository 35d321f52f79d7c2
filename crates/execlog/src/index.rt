//! Where the names of bodies are found with no search, mostly.

use crate::book::Body;

/// For each mark, one more than the number of the first body whose name has it; 0 for none.
#[derive(Drop)]
pub(crate) struct Index {
    slots: [u8; 256],
}

/// The mark of a name: names that are numbered have different ones.
#[inline(always)]
fn mark_of(name: &[u8]) -> u8 {
    match name.split_last() {
        None => 0,
        Some((last, others)) => match others.last() {
            None => *last,
            Some(b) => last.wrapping_add(b.wrapping_mul(10)),
        },
    }
}

impl Index {
    /// The index of some bodies.
    pub(crate) fn new(bodies: &[Body]) -> Index {
        let mut slots = [0u8; 256];
        let mut next = 0u8;
        for body in bodies {
            let mark = mark_of(body.name.as_str().as_bytes());
            next = next.saturating_add(1);
            if slots[mark as usize] == 0 {
                slots[mark as usize] = next;
            }
        }
        Index { slots }
    }

    /// The number of a body that may have a name.
    #[inline(always)]
    pub(crate) fn place_of(&self, name: &[u8]) -> usize {
        (self.slots[mark_of(name) as usize] as usize).saturating_sub(1)
    }
}
