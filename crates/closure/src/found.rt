//! What a search has found: states, alerts, and where each kind leads.
use crate::texts::Texts;
use script::Event;
use std::alloc::{AllocError, Global};

/// How a state was first come to: from another state, by a kind. The first state was come to by nothing.
#[derive(Clone, Copy, Debug)]
pub struct Node {
    /// The number of the other state.
    pub parent: usize,
    /// The number of the kind.
    pub kind: usize,
}

/// Where a kind leads.
#[derive(Clone, Copy, Debug)]
pub enum Next {
    /// To the state of a number.
    State(usize),
    /// To the alert of a number.
    Alert(usize),
}

/// An alert, and the events that come to it.
#[derive(Drop)]
pub struct Alert {
    /// The events before the last one.
    pub before: Vec<Event>,
    /// The event that ends in the alert.
    pub last: Event,
    /// The last line that this event writes, without its end.
    pub line: Vec<u8>,
}

/// What a search has found. Nothing rests on it: `is_closed` and `are_shown` look at each part of it anew.
#[derive(Drop)]
pub struct Found {
    /// The keys of the states, in the order in which they were found.
    pub keys: Texts,
    /// The alerts, each with a line of its own, in the order in which they were found.
    pub alerts: Vec<Alert>,
    /// How each state was first come to; the parent of each but the first has a smaller number.
    pub nodes: Vec<Node>,
    /// Where each kind leads from each state: one state after another.
    pub nexts: Vec<Next>,
}

impl Found {
    /// Nothing was found yet.
    ///
    /// Source: project rule.
    pub(crate) fn new(alloc: Global) -> Found {
        Found {
            keys: Texts::new(alloc),
            alerts: Vec::new(alloc),
            nodes: Vec::new(alloc),
            nexts: Vec::new(alloc),
        }
    }

    /// Where a kind leads from a state; none past the last.
    ///
    /// Source: project rule.
    pub(crate) fn next(&self, kinds: usize, state: usize, kind: usize) -> Option<Next> {
        let row = state.checked_mul(kinds)?;
        let place = row.checked_add(kind)?;
        self.nexts.get(place).copied()
    }

    /// Leaves in `list` the events by which a state was first come to.
    ///
    /// # Errors
    ///
    /// Memory was refused.
    ///
    /// Source: project rule.
    pub(crate) fn events(
        &self,
        kinds: &[Event],
        state: usize,
        list: &mut Vec<Event>,
    ) -> Result<(), AllocError> {
        list.clear();
        let mut at = state;
        for _ in 0..self.nodes.len() {
            if at == 0 {
                break;
            }
            let Some(node) = self.nodes.get(at) else {
                break;
            };
            if let Some(kind) = kinds.get(node.kind) {
                list.push(*kind)?;
            }
            at = node.parent;
        }
        list.reverse();
        Ok(())
    }
}
