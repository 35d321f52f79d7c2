//! The search for the states of a machine, breadth first: so the events that come to a state, and to an alert, are as
//! few as can be. Nothing rests on it: what it finds is looked at anew.
ghost use Rattle.std.specs.Prelude.{◌≡◌};

use crate::check::walk;
use crate::fault::Fault;
use crate::found::{Alert, Found, Next, Node};
use crate::walker::Walker;
use indexmap::IndexMap;
use script::Event;
use std::alloc::Global;

/// What a long search is reported to.
pub trait Watcher {
    /// So far this number of states and this number of alerts were found.
    fn report(&mut self, states: usize, alerts: usize);
}

/// How far a search goes.
#[derive(Clone, Copy)]
pub struct Limits {
    /// The most states that are held.
    pub states: usize,
    /// The most events on the ways to the states whose next events are tried.
    pub events: u64,
}

/// What a search has found, and whether that is all: if not, it has met a limit.
#[derive(Drop)]
pub struct Searched {
    pub found: Found,
    pub is_whole: bool,
}

/// A search in progress: what was found, and the number of each state by its key.
#[derive(Drop)]
struct SoFar {
    alloc: Global,
    found: Found,
    numbers: IndexMap<Vec<u8>, usize>,
}

/// The place of the alert that has a line.
fn place_of(alerts: &[Alert], line: &[u8]) -> Option<usize> {
    alerts
        .iter()
        .position(|alert| alert.line.as_slice() == line)
}

impl SoFar {
    /// A search that has found nothing yet.
    fn new(alloc: Global) -> SoFar {
        SoFar {
            alloc,
            found: Found::new(alloc),
            numbers: IndexMap::new(alloc),
        }
    }

    /// The state of a key, which is noted if it is new.
    fn state(&mut self, key: &[u8], node: Node) -> Result<Next, Fault> {
        if let Some(number) = self.numbers.get(key) {
            return Ok(Next::State(*number));
        }
        let number = self.found.keys.len();
        let copy = Vec::from_slice(self.alloc, key)?;
        self.numbers.insert(copy, number)?;
        self.found.keys.push(self.alloc, key)?;
        self.found.nodes.push(node)?;
        Ok(Next::State(number))
    }

    /// The alert of a line, which is noted if it is new.
    fn alert(&mut self, before: &[Event], last: Event, line: &[u8]) -> Result<Next, Fault> {
        if let Some(place) = place_of(&self.found.alerts, line) {
            return Ok(Next::Alert(place));
        }
        let number = self.found.alerts.len();
        let alert = Alert {
            before: Vec::from_slice(self.alloc, before)?,
            last,
            line: Vec::from_slice(self.alloc, line)?,
        };
        self.found.alerts.push(alert)?;
        Ok(Next::Alert(number))
    }

    /// What was found, and whether that is all.
    fn ended(self, is_whole: bool) -> Searched {
        let SoFar {
            alloc: _,
            found,
            numbers: _,
        } = self;
        Searched { found, is_whole }
    }
}

/// Where a kind leads from where a walker is, to which some events come.
fn next_of<W: Walker>(
    walker: &mut W,
    so_far: &mut SoFar,
    list: &[Event],
    one: Event,
    node: Node,
    text: &mut Vec<u8>,
) -> Result<Next, Fault>
    ensures { W.machine_of walker.new ≡ W.machine_of walker.old }
{
    if walker.go(one, text)? {
        return so_far.alert(list, one, text.as_slice());
    }
    walker.tell(text)?;
    so_far.state(text.as_slice(), node)
}

/// Notes where each kind leads from a state, to which some events come.
fn try_kinds<W: Walker>(
    walker: &mut W,
    so_far: &mut SoFar,
    list: &[Event],
    kinds: &[Event],
    state: usize,
    text: &mut Vec<u8>,
) -> Result<(), Fault>
    ensures { W.machine_of walker.new ≡ W.machine_of walker.old }
{
    for kind in 0..kinds.len() {
        // The events came to a state before, and do so again.
        walk(walker, list, text)?;
        let node = Node {
            parent: state,
            kind,
        };
        let next = next_of(walker, so_far, list, kinds[kind], node, text)?;
        so_far.found.nexts.push(next)?;
    }
    Ok(())
}

/// Notes the first state.
fn begin<W: Walker>(walker: &mut W, so_far: &mut SoFar, text: &mut Vec<u8>) -> Result<(), Fault>
    ensures { W.machine_of walker.new ≡ W.machine_of walker.old }
{
    walker.begin()?;
    walker.tell(text)?;
    let first = Node { parent: 0, kind: 0 };
    let _ = so_far.state(text.as_slice(), first)?;
    Ok(())
}

/// Searches for the states to which events of these kinds come, in whatever order and however many, and for the alerts
/// in which they end. What was found before a limit is met is answered too.
///
/// # Errors
///
/// What the walker answers; `OutOfMemory`.
///
/// Source: project rule.
pub fn search<W: Walker, P: Watcher>(
    alloc: Global,
    walker: &mut W,
    kinds: &[Event],
    limits: Limits,
    watcher: &mut P,
) -> Result<Searched, Fault>
    ensures { W.machine_of walker.new ≡ W.machine_of walker.old }
{
    let mut so_far = SoFar::new(alloc);
    let mut list = Vec::new(alloc);
    let mut text = Vec::new(alloc);
    let mut events: u64 = 0;
    begin(walker, &mut so_far, &mut text)?;
    for state in 0..limits.states {
        let states = so_far.found.keys.len();
        if state >= states {
            return Ok(so_far.ended(true));
        }
        if states > limits.states || events > limits.events {
            return Ok(so_far.ended(false));
        }
        so_far.found.events(kinds, state, &mut list)?;
        events = events.saturating_add(list.len() as u64);
        try_kinds(walker, &mut so_far, &list, kinds, state, &mut text)?;
        watcher.report(so_far.found.keys.len(), so_far.found.alerts.len());
    }
    let is_whole = so_far.found.keys.len() <= limits.states;
    Ok(so_far.ended(is_whole))
}
