//! What a machine file states: the machine's parts, as records.
ghost use Rattle.std.specs.Prelude.{◌≡◌, map};
ghost use Rattle.script.specs.{Machines.IsMachine, Records.library_view, Records.softint_view, Records.server_view, Records.task_view, Records.machine_data};

use crate::command::Command;
use crate::name::Name;
use memlist::Region;
use softint::source::Source;
use std::marker::Model;

/// A task of the machine.
#[derive(Drop)]
pub struct TaskRecord {
    /// Its name, which no other software interrupt, server or task has.
    pub name: Name,
    /// Its priority.
    pub pri: i8,
    /// Whether it is added when the machine starts.
    pub start: bool,
    /// Its commands, in the order of its lines: at most 1,024.
    pub code: Vec<Command>,
}

/// A library of the machine.
#[derive(Clone, Copy)]
pub struct LibraryRecord {
    /// Its name, which no other library has.
    pub name: Name,
    /// Its version, which an opener may ask for at least.
    pub version: u16,
    /// The bytes of memory that it takes while it is loaded: 8 to 65,536.
    pub size: u32,
}

/// A software interrupt of the machine.
#[derive(Drop)]
pub struct SoftintRecord {
    /// Its name, which no other software interrupt, server or task has.
    pub name: Name,
    /// Its priority: -32, -16, 0, 16 or 32.
    pub pri: i8,
    /// Its commands, in the order of its lines: at most 1,024.
    pub code: Vec<Command>,
}

/// A server of the machine.
#[derive(Drop)]
pub struct ServerRecord {
    /// Its name, which no other software interrupt, server or task has.
    pub name: Name,
    /// The source that it serves.
    pub source: Source,
    /// Its priority.
    pub pri: i8,
    /// Whether it ends the chain of its source.
    pub claim: bool,
    /// Its commands, in the order of its lines: at most 1,024.
    pub code: Vec<Command>,
}

/// The machine that a file states.
#[derive(Drop)]
pub struct MachineFile {
    version: u8,
    quantum: u8,
    tick_micros: u32,
    pool: u32,
    regions: Vec<Region>,
    libraries: Vec<LibraryRecord>,
    softints: Vec<SoftintRecord>,
    servers: Vec<ServerRecord>,
    tasks: Vec<TaskRecord>,
}

impl Model for MachineFile {
    ghost use Rattle.script.specs.{File.MachineData, Machines.IsMachine, Records.machine_data};

    ghost Value = { MachineData };

    ghost view = { λ m. machine_data m.version m.quantum m.tick_micros m.pool m.regions.items m.libraries.items m.softints.items m.servers.items m.tasks.items };

    ghost invariant = { λ m. IsMachine (machine_data m.version m.quantum m.tick_micros m.pool m.regions.items m.libraries.items m.softints.items m.servers.items m.tasks.items) };
}

impl MachineFile {
    /// The machine of those parts: the version of its rules, its quantum, the microseconds of a tick, the number of
    /// objects of each kind that may live, and its regions, libraries, software interrupts, servers and tasks, each in
    /// the order of the file.
    pub fn new(
        version: u8,
        quantum: u8,
        tick_micros: u32,
        pool: u32,
        regions: Vec<Region>,
        libraries: Vec<LibraryRecord>,
        softints: Vec<SoftintRecord>,
        servers: Vec<ServerRecord>,
        tasks: Vec<TaskRecord>,
    ) -> MachineFile
        requires { IsMachine (machine_data version quantum tick_micros pool regions.items libraries.items softints.items servers.items tasks.items) }
        ensures { result ≡ machine_data version quantum tick_micros pool regions.items libraries.items softints.items servers.items tasks.items }
    {
        MachineFile {
            version,
            quantum,
            tick_micros,
            pool,
            regions,
            libraries,
            softints,
            servers,
            tasks,
        }
    }

    /// The version of the rules that the machine goes by: 1, or 2, in which libraries are asked for memory when a block
    /// fits nowhere, and regions may have 4,194,304 bytes in all; 1 if `version` is not in the file (project rule).
    pub fn version(&self) -> u8
        ensures version { result ≡ self.now.version }
        ensures machine { IsMachine self.now }
    {
        self.version
    }

    /// The quantum: how many servings of VERTB a task runs before it lets an equal one run, 1 to 255 (RKM Libraries,
    /// Exec Tasks: scheduling).
    pub fn quantum(&self) -> u8
        ensures quantum { result ≡ self.now.quantum }
        ensures machine { IsMachine self.now }
    {
        self.quantum
    }

    /// The microseconds that the clock of timer.device gains at each tick: 1 to 1,000,000, or 20,000 if `tick_micros`
    /// is not in the file (project rule: the vertical blank comes 50 times a second).
    pub fn tick_micros(&self) -> u32
        ensures tick_micros { result ≡ self.now.tick_micros }
        ensures machine { IsMachine self.now }
    {
        self.tick_micros
    }

    /// The number that is at `pool`: 1 to 1,024, or 64 if none is. That many objects of each kind may
    /// live at once (project rule).
    pub fn pool(&self) -> u32
        ensures pool { result ≡ self.now.pool }
        ensures machine { IsMachine self.now }
    {
        self.pool
    }

    /// The regions of memory, in the order of the file (RKM Libraries, Exec Memory Allocation). `check_regions` accepts
    /// them.
    pub fn regions(&self) -> &[Region]
        ensures regions { result.now ≡ self.now.regions }
        ensures machine { IsMachine self.now }
    {
        &self.regions
    }

    /// The libraries, in the order of the file: at most 32 (RKM Libraries, Exec Libraries).
    pub fn libraries(&self) -> &[LibraryRecord]
        ensures libraries { map library_view result.now ≡ self.now.libraries }
        ensures machine { IsMachine self.now }
    {
        &self.libraries
    }

    /// The software interrupts, in the order of the file: at most 32 (RKM Libraries, Exec Interrupts).
    pub fn softints(&self) -> &[SoftintRecord]
        ensures softints { map softint_view result.now ≡ self.now.softints }
        ensures machine { IsMachine self.now }
    {
        &self.softints
    }

    /// The servers of all sources, in the order of the file: at most 32 (RKM Libraries, Exec Interrupts).
    pub fn servers(&self) -> &[ServerRecord]
        ensures servers { map server_view result.now ≡ self.now.servers }
        ensures machine { IsMachine self.now }
    {
        &self.servers
    }

    /// The tasks, in the order of the file: at most 64. The first one is task 1.
    pub fn tasks(&self) -> &[TaskRecord]
        ensures tasks { map task_view result.now ≡ self.now.tasks }
        ensures machine { IsMachine self.now }
    {
        &self.tasks
    }
}
