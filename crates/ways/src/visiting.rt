//! Visits each way of a part once, in their order, with no list of ways in memory.
ghost use Rattle.std.specs.Prelude.{◌≡◌, ◌++◌, ◌≤◌, ◌<◌, List, map, drop, length, OnOk, fold};
ghost use Rattle.script.specs.declared.event.Event.{Event};
ghost use Rattle.ways.specs.{Ways.exactly, Ways.with_each, Ways.ways, Ways.passes, Ways.part_of, Windows.passing};

use crate::fault::SearchFault;
use crate::sizes::Sizes;
use script::Event;
use std::alloc::Global;

/// What is reported each way.
pub trait Visitor {
    /// What it becomes by a way.
    ghost after: { Self → List Event → Self };

    /// Takes a way.
    fn visit(&mut self, way: &[Event]) -> Result<(), SearchFault>
        ensures { OnOk result (self.new ≡ after self.old way.now) };
}

/// The ways that are left of a part.
#[derive(Clone, Copy)]
pub struct Window {
    /// That many ways are to be skipped first.
    pub skip: u64,
    /// That many are then to be visited.
    pub left: u64,
}

/// Visits the ways that begin with `way`, have one of the kinds after it, and then exactly that many extras more among
/// the actions from `at`.
#[cycle(visiting)]
fn visit_here<V: Visitor>(
    visitor: &mut V,
    window: &mut Window,
    sizes: &Sizes,
    kinds: &[Event],
    more: usize,
    actions: &[Event],
    at: usize,
    way: &mut Vec<Event>,
) -> Result<(), SearchFault>
    requires at { at ≤ length actions.now }
    requires kinds { sizes.now.kinds ≡ length kinds.now }
    requires more { more ≤ sizes.now.most }
    requires places { length actions.now ≤ sizes.now.places }
    ensures way { OnOk result (way.new.items ≡ way.old.items) }
    ensures visits { OnOk result (passing window.new visitor.new
        ≡ fold (passes V.after) (passing window.old visitor.old) (map (λ rest. way.old.items ++ rest) (with_each kinds.now (exactly kinds.now more (drop at actions.now))))) }
{
    for kind in kinds {
        way.push(*kind)?;
        visit_from(visitor, window, sizes, kinds, more, actions, at, way)?;
        way.pop();
    }
    Ok(())
}

/// Visits the ways that begin with `way` and then have exactly that many extras among the actions from `from`.
#[cycle(visiting)]
fn visit_from<V: Visitor>(
    visitor: &mut V,
    window: &mut Window,
    sizes: &Sizes,
    kinds: &[Event],
    extras: usize,
    actions: &[Event],
    from: usize,
    way: &mut Vec<Event>,
) -> Result<(), SearchFault>
    requires from { from ≤ length actions.now }
    requires kinds { sizes.now.kinds ≡ length kinds.now }
    requires more { extras ≤ sizes.now.most }
    requires places { length actions.now ≤ sizes.now.places }
    ensures way { OnOk result (way.new.items ≡ way.old.items) }
    ensures visits { OnOk result (passing window.new visitor.new
        ≡ fold (passes V.after) (passing window.old visitor.old) (map (λ rest. way.old.items ++ rest) (exactly kinds.now extras (drop from actions.now)))) }
{
    let size = sizes.size(extras, actions.len() - from);
    if window.left == 0 {
        window.skip = window.skip.saturating_sub(size);
        return Ok(());
    }
    if window.skip >= size {
        window.skip -= size;
        return Ok(());
    }
    let length = way.len();
    if extras == 0 {
        way.extend_from_slice(&actions[from..])?;
        visitor.visit(way.as_slice())?;
        way.truncate(length);
        window.left -= 1;
        return Ok(());
    }
    for at in from..actions.len() {
        visit_here(visitor, window, sizes, kinds, extras - 1, actions, at, way)?;
        way.push(actions[at])?;
    }
    visit_here(
        visitor,
        window,
        sizes,
        kinds,
        extras - 1,
        actions,
        actions.len(),
        way,
    )?;
    way.truncate(length);
    Ok(())
}

/// Visits the ways with exactly that many extras among the actions, as far as they are in the part.
fn visit_exactly<V: Visitor>(
    visitor: &mut V,
    window: &mut Window,
    sizes: &Sizes,
    kinds: &[Event],
    extras: usize,
    actions: &[Event],
    way: &mut Vec<Event>,
) -> Result<(), SearchFault>
    requires kinds { sizes.now.kinds ≡ length kinds.now }
    requires more { extras ≤ sizes.now.most }
    requires places { length actions.now ≤ sizes.now.places }
    ensures visits { OnOk result (passing window.new visitor.new ≡ fold (passes V.after) (passing window.old visitor.old) (exactly kinds.now extras actions.now)) }
{
    way.clear();
    visit_from(visitor, window, sizes, kinds, extras, actions, 0, way)
}

/// Visits the ways of a part with at most that many extras.
fn visit_most<V: Visitor>(
    visitor: &mut V,
    window: &mut Window,
    sizes: &Sizes,
    kinds: &[Event],
    most: usize,
    actions: &[Event],
    way: &mut Vec<Event>,
) -> Result<(), SearchFault>
    requires kinds { sizes.now.kinds ≡ length kinds.now }
    requires more { most ≤ sizes.now.most }
    requires places { length actions.now ≤ sizes.now.places }
    ensures visits { OnOk result (passing window.new visitor.new ≡ fold (passes V.after) (passing window.old visitor.old) (ways kinds.now most actions.now)) }
{
    visit_exactly(visitor, window, sizes, kinds, 0, actions, way)?;
    for fewer in 0..most {
        visit_exactly(visitor, window, sizes, kinds, fewer + 1, actions, way)?;
    }
    Ok(())
}

/// Visits the ways with at most that many extras among the actions from number `skip` on, `left` of them, each once and
/// in their order.
///
/// # Errors
///
/// If memory is refused, or the visitor gives up.
pub fn visit_part<V: Visitor>(
    alloc: Global,
    visitor: &mut V,
    sizes: &Sizes,
    kinds: &[Event],
    actions: &[Event],
    part: Window,
) -> Result<(), SearchFault>
    requires kinds { sizes.now.kinds ≡ length kinds.now }
    requires places { length actions.now ≤ sizes.now.places }
    ensures { OnOk result (visitor.new ≡ fold V.after visitor.old (part_of part.skip part.left (ways kinds.now sizes.now.most actions.now))) }
{
    let mut way = Vec::new(alloc);
    let mut window = part;
    visit_most(
        visitor,
        &mut window,
        sizes,
        kinds,
        sizes.most,
        actions,
        &mut way,
    )
}
