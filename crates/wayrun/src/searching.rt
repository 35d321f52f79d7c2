//! The search: each way of a part is run from the first state of the machine, and what is seen of it is noted.
ghost use Rattle.std.specs.Prelude.{◌≡◌, ◌≤◌, ◌+◌, [], true, IfOk, OnOk, List, ℕ, length, sum_by};
ghost use Rattle.script.specs.Events.{event_ticks};
ghost use Rattle.ways.specs.{Ways.ways as ways_of, Ways.part_of, Tables.number_where, Tables.table_of};
ghost use Rattle.wayrun.specs.Seen.{is_alerted, seen_of, stops};

use crate::running::{Bench, run_way};
use crate::see::See;
use execsim::Flow;
use script::{Event, MachineFile};
use std::alloc::Global;
use std::marker::Model;
use ways::{SearchFault, Show, Sizes, Tabler, Watcher, Window, table_of_part};

/// How many ticks a way may have.
const MOST_TICKS: u32 = 1_000_000;

/// The ticks of an event.
fn ticks_in(event: Event) -> u32
    ensures { result ≡ event_ticks event }
{
    match event {
        Event::Run(_) | Event::Irq(_) => 0,
        Event::Tick(n) => n,
    }
}

/// Whether a way has no more ticks than it may have.
fn has_time(way: &[Event]) -> bool
    ensures { result ≡ true → sum_by event_ticks way.now ≤ 1000000 }
{
    let mut left = MOST_TICKS;
    for event in way {
        let ticks = ticks_in(*event);
        if ticks > left {
            return false;
        }
        left -= ticks;
    }
    true
}

/// Whether an alert has stopped a machine.
fn is_stopped(flow: Flow) -> bool
    ensures { result ≡ stops flow }
{
    match flow {
        Flow::Going => false,
        Flow::Alerted => true,
    }
}

/// Runs ways of a machine file.
#[derive(Drop)]
pub struct Runs<'a> {
    alloc: Global,
    file: &'a MachineFile,
    see: See,
    bench: Bench,
}

impl<'a> Model for Runs<'a> {
    ghost use Rattle.wayrun.specs.Sought.{Sought};

    ghost Value = { Sought };

    ghost view = { λ runs. record { file = runs.file.now; see = runs.see } };
}

impl<'a> Show for Runs<'a> {
    ghost use Rattle.wayrun.specs.Seen.{is_alerted, seen_of};

    ghost seen = { λ runs way. seen_of runs.see runs.file way };

    ghost alerted = { λ runs way. is_alerted runs.file way };

    fn show(&mut self, way: &[Event], text: &mut Vec<u8>) -> Result<bool, SearchFault> {
        if !has_time(way) {
            return Err(SearchFault::TooManyTicks);
        }
        let flow = run_way(self.alloc, &mut self.bench, self.file, way, self.see, text)?;
        Ok(is_stopped(flow))
    }
}

/// Runs each way of a part from the first state of the machine, and answers the table of what is seen.
///
/// The ways are those with at most `sizes.most` extras of these kinds among the actions; the part names them by their
/// numbers from 0. No way is left out, no outcome is made up, each count is right, and each first way is the least.
///
/// # Errors
///
/// `OutOfMemory`; `TooManyOutcomes` for more than 65,536; `TooMuch` for outcomes of more than `MOST_BYTES`, with the
/// number of ways before; `TooManyTicks` when a way has more than 1,000,000.
///
/// Source: project rule.
pub fn search<'a, P: Watcher + Drop>(
    alloc: Global,
    file: &'a MachineFile,
    see: See,
    watcher: P,
    sizes: &Sizes,
    kinds: &[Event],
    actions: &[Event],
    part: Window,
) -> Result<Tabler<Runs<'a>, P>, SearchFault>
    requires kinds { sizes.now.kinds ≡ length kinds.now }
    requires places { length actions.now ≤ sizes.now.places }
    ensures table { IfOk result (λ found. found.table ≡ table_of (seen_of see file.now) [] (part_of part.skip part.left (ways_of kinds.now sizes.now.most actions.now))) }
    ensures alerts { IfOk result (λ found. found.alerts ≡ number_where (is_alerted file.now) (part_of part.skip part.left (ways_of kinds.now sizes.now.most actions.now))) }
{
    let bench = Bench::new(alloc, file)?;
    let runs = Runs {
        alloc,
        file,
        see,
        bench,
    };
    let mut tabler = Tabler::new(alloc, runs, watcher);
    table_of_part(alloc, &mut tabler, sizes, kinds, actions, part)?;
    Ok(tabler)
}
