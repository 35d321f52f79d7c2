//! The parts of a machine that take memory as they are made, and how each is made.
use crate::unmade::Unmade;
use execheap::Heap;
use execlib::library::LibInit;
use execlib::libs::Libs;
use execlist::key::Name;
use execlist::link::LinkSpace;
use execlist::plain::PlainSpace;
use execlist::pool::Pool;
use execlist::space::ListSpace;
use execsim::{FILE_LIMIT, read_limited};
use iorequest::requests::Requests;
use memlist::{MemList, Region};
use msgport::ports::Ports;
use scheduler::Sched;
use sigsem::sems::Sems;
use softint::interrupt::{Server, Soft};
use softint::ints::Ints;
use softint::source::Source;
use std::alloc::Global;
use std::io;
use std::io::Read;
use taskq::{TaskInit, TaskQ};
use taskscript::{read_events, read_machine};
use timerdev::timer::Timer;

/// What is made.
#[derive(Clone, Copy)]
pub enum Part {
    PlainSpace,
    LinkSpace,
    Pool,
    TaskQueue,
    Schedule,
    Ports,
    Semaphores,
    Interrupts,
    Libraries,
    Requests,
    Timer,
    Memory,
    Heap,
    MachineFile,
    EventText,
    Text,
}

/// The parts, with their names.
pub static PARTS: [(&str, Part); 16] = [
    ("plain-space", Part::PlainSpace),
    ("link-space", Part::LinkSpace),
    ("pool", Part::Pool),
    ("task-queue", Part::TaskQueue),
    ("schedule", Part::Schedule),
    ("ports", Part::Ports),
    ("semaphores", Part::Semaphores),
    ("interrupts", Part::Interrupts),
    ("libraries", Part::Libraries),
    ("requests", Part::Requests),
    ("timer", Part::Timer),
    ("memory", Part::Memory),
    ("heap", Part::Heap),
    ("machine-file", Part::MachineFile),
    ("event-text", Part::EventText),
    ("text", Part::Text),
];

const MACHINE_FILE: &str =
    "[[region]]\nbase = 4096\nsize = 64\n\n[[task]]\nname = \"a\"\ncode = [\"l:\", \"v = Add v 1\", \"Jump l\"]\n";

const EVENT_TEXT: &str = "run 2\n# a tick, and a request\ntick 1\nirq PORTS\n";

static REGIONS: [Region; 2] = [
    Region {
        base: 4096,
        size: 64,
        attrs: 1,
        pri: 0,
    },
    Region {
        base: 8192,
        size: 128,
        attrs: 3,
        pri: 5,
    },
];

impl Part {
    /// The part of this name.
    pub(crate) fn named(word: &str) -> Option<Part> {
        for (name, part) in &PARTS {
            if *name == word {
                return Some(*part);
            }
        }
        None
    }
}

/// A task of this name.
fn task(name: &str) -> TaskInit {
    let name = Name::from(name).unwrap_or_default();
    TaskInit { name, pri: 0 }
}

/// Two tasks.
fn tasks() -> [TaskInit; 2] {
    [task("a"), task("b")]
}

/// A library of this name.
fn library(name: &str) -> LibInit {
    LibInit {
        name: Name::from(name).unwrap_or_default(),
        version: 37,
        size: 16,
    }
}

/// Two libraries.
fn libraries() -> [LibInit; 2] {
    [library("x.library"), library("y.library")]
}

/// Makes a list space of the type S, and lets it go.
fn make_space<S: ListSpace>(alloc: Global) -> Result<(), Unmade> {
    let _space: S = S::new(alloc, 8, 64)?;
    Ok(())
}

/// Makes the services that keep their items in lists, and lets each go.
fn make_service(alloc: Global, part: Part) -> Result<(), Unmade> {
    match part {
        Part::TaskQueue => drop(TaskQ::<LinkSpace>::new(alloc, &tasks())?),
        Part::Schedule => drop(Sched::<LinkSpace>::new(alloc, &tasks(), 4)?),
        Part::Ports => drop(Ports::<LinkSpace>::new(alloc, 8, 16)?),
        Part::Semaphores => drop(Sems::<LinkSpace>::new(alloc, 8, 2)?),
        Part::Libraries => drop(Libs::<LinkSpace>::new(alloc, &libraries(), true)?),
        Part::Timer => drop(Timer::<LinkSpace>::new(alloc, 8, 20_000)?),
        Part::Interrupts => {
            let softs = [Soft { pri: 16 }, Soft { pri: -32 }];
            let server = Server {
                source: Source::Ports,
                pri: 0,
            };
            drop(Ints::<LinkSpace>::new(alloc, &softs, &[server])?);
        }
        _ => return Err(Unmade::Wrong),
    }
    Ok(())
}

/// Makes a part, and lets it go.
pub(crate) fn make(alloc: Global, part: Part) -> Result<(), Unmade> {
    match part {
        Part::PlainSpace => make_space::<PlainSpace>(alloc),
        Part::LinkSpace => make_space::<LinkSpace>(alloc),
        Part::Pool => Ok(drop(Pool::<u32>::new(alloc, 8)?)),
        Part::Requests => Ok(drop(Requests::new(alloc, 8)?)),
        Part::Memory => Ok(drop(MemList::new(alloc, &REGIONS, 192)?)),
        Part::Heap => Ok(drop(Heap::<LinkSpace>::new(
            alloc,
            &REGIONS,
            8,
            8,
            &libraries(),
            true,
            20_000,
        )?)),
        Part::MachineFile => Ok(drop(read_machine(alloc, MACHINE_FILE.as_bytes())?)),
        Part::EventText => Ok(drop(read_events(alloc, EVENT_TEXT.as_bytes())?)),
        Part::Text => {
            let mut reader = io::repeat(b'\n').take(FILE_LIMIT as u64);
            Ok(drop(read_limited(alloc, &mut reader)?))
        }
        _ => make_service(alloc, part),
    }
}
