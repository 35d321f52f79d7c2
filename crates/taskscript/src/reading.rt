//! Reading a machine file.
ghost use Rattle.std.specs.Prelude.{◌≡◌, map, Ok, Err, Some, IfOk, MatchResult};
ghost use Rattle.toml.specs.View.{table_view};
ghost use Rattle.script.specs.Records.{library_view};
ghost use Rattle.taskscript.specs.{Faults.Judges, Listings.listing_in, Listings.listing_of, Tree.of_items, File.libraries_faults, File.libraries_in, File.library_of, File.settings_faults, File.version_of, File.quantum_of, File.tick_micros_of, File.pool_of, File.refusals, File.machine_of, File.file_of, File.placed_file_of};

use crate::fault::FileFault;
use crate::heads::heads_at;
use crate::listing::Listed;
use crate::owners::owners_at;
use crate::place::{Array, Key, TablePlace};
use crate::refused::{Refused, unknown_key};
use crate::regions::{regions_at, total_of};
use crate::tree::{document, has_only, optional_number};
use script::{LibraryRecord, MachineFile};
use std::alloc::Global;
use toml::Table;

/// The values of the keys that hold a number.
#[derive(Clone, Copy)]
struct Settings {
    version: u8,
    quantum: u8,
    tick_micros: u32,
    pool: u32,
}

fn settings_of(table: &Table) -> Result<Settings, Refused>
    ensures { Judges result (settings_faults (table_view table.now)) (λ s. (s.version ≡ version_of (table_view table.now)) × (s.quantum ≡ quantum_of (table_view table.now)) × (s.tick_micros ≡ tick_micros_of (table_view table.now)) × (s.pool ≡ pool_of (table_view table.now))) }
{
    let top = TablePlace::Top;
    let version = optional_number(top, Key::Version, table, 1, 2, 1)?;
    let quantum = optional_number(top, Key::Quantum, table, 1, 255, 4)?;
    let tick_micros = optional_number(top, Key::TickMicros, table, 1, 1_000_000, 20_000)?;
    let pool = optional_number(top, Key::Pool, table, 1, 1024, 64)?;
    Ok(Settings {
        version: version as u8,
        quantum: quantum as u8,
        tick_micros,
        pool,
    })
}

/// The libraries of a file, whose names are distinct among themselves.
fn libraries_at(alloc: Global, table: &Table) -> Result<Vec<LibraryRecord>, Refused>
    ensures { Judges result (libraries_faults (table_view table.now)) (λ ls. map library_view ls.items ≡ of_items library_of (libraries_in (table_view table.now))) }
{
    let mut names = Vec::new(alloc);
    heads_at(alloc, table, Array::Library, &mut names)
}

/// Reads a machine file out of its tree, as `read_placed` does out of its bytes.
///
/// # Errors
///
/// As `read_placed`, but for `NotToml`.
///
/// The format is a project rule.
pub fn read_tree(alloc: Global, table: &Table) -> Result<Listed, Refused>
    ensures { Judges result (refusals (table_view table.now)) (λ l. (l.machine ≡ machine_of (table_view table.now)) × (l.listing ≡ listing_of (table_view table.now))) }
{
    if !has_only(
        table,
        &[
            "version",
            "quantum",
            "tick_micros",
            "pool",
            "region",
            "library",
            "softint",
            "server",
            "task",
        ],
    ) {
        return Err(unknown_key(TablePlace::Top));
    }
    let settings = settings_of(table)?;
    let regions = regions_at(alloc, table, total_of(settings.version))?;
    let libraries = libraries_at(alloc, table)?;
    let owners = owners_at(alloc, table)?;
    let machine = MachineFile::new(
        settings.version,
        settings.quantum,
        settings.tick_micros,
        settings.pool,
        regions,
        libraries,
        owners.softints,
        owners.servers,
        owners.tasks,
    );
    Ok(Listed {
        machine,
        listing: owners.listing,
    })
}

/// Reads a machine file as `read_listed` does, and says of its fault where it is.
///
/// # Errors
///
/// As `read_machine`, with the place of the fault. `NotToml` and `OutOfMemory` are of the file as a whole. `TooMany`
/// for a body of more than 1,024 lines is at its key `code`, `BadRegions` at the array `region`, and `BadLabel` for a
/// jump at the line of the jump.
///
/// The format is a project rule.
pub fn read_placed(alloc: Global, bytes: &[u8]) -> Result<Listed, Refused>
    ensures machine { MatchResult result (λ l. placed_file_of bytes.now ≡ Ok l.machine) (λ r. ¬ (r.fault ≡ FileFault.OutOfMemory) → placed_file_of bytes.now ≡ Err r) }
    ensures listing { IfOk result (λ l. listing_in bytes.now ≡ Some l.listing) }
{
    let table = document(alloc, bytes)?;
    read_tree(alloc, &table)
}

/// Reads a machine file as `read_machine` does, with the lines of its commands and the names of its variables.
///
/// # Errors
///
/// As `read_machine`.
///
/// The format is a project rule.
pub fn read_listed(alloc: Global, bytes: &[u8]) -> Result<Listed, FileFault>
    ensures machine { MatchResult result (λ l. file_of bytes.now ≡ Ok l.machine) (λ f. ¬ (f ≡ FileFault.OutOfMemory) → file_of bytes.now ≡ Err f) }
    ensures listing { IfOk result (λ l. listing_in bytes.now ≡ Some l.listing) }
{
    match read_placed(alloc, bytes) {
        Err(refused) => Err(refused.fault),
        Ok(listed) => Ok(listed),
    }
}

/// Reads a machine file, a TOML document.
///
/// It may have `version`, 1 or 2, which is 1 if it is absent, `quantum`, 1 to 255, which is 4 if it is absent,
/// `tick_micros`, 1 to 1000000, which is 20000 if it is absent, `pool`, 1 to 1024, which is 64 if it is absent,
/// `region`, an array of at most 8 tables, `library`, `softint` and `server`, arrays of at most 32 tables each, and
/// `task`, an array of at most 64 tables. A region has `base` and `size`, 0 to 4294967295, and may have `attrs`, 0 to
/// 7, which is 1 if it is absent, and a `pri` as a task.
///
/// A library has a `name` as below, which no other library has, a `version` from 0 to 65535, and a `size` in bytes, 8
/// to 65536. What is not a library may have a library's name.
///
/// A software interrupt, a server and a task have a `name` of 1 to 31 of the characters `A`-`Z`, `a`-`z`, `0`-`9`, `.`,
/// `_` and `-`, which no other of them all has, and a `code`, an array of at most 1,024 strings, which are its lines. A
/// software interrupt has a `pri` of -32, -16, 0, 16 or 32. A server has a `source`, `PORTS`, `VERTB` or `EXTER`, and
/// may have a `pri` as a task and a boolean `claim`, which is false if it is absent. A task may have a `pri` from -128
/// to 127, which is 0 if it is absent, and a boolean `start`, which is true if it is absent.
///
/// The body of a software interrupt or of a server may have `Set`, `Add`, `Sub`, `And`, `Or`, `Print`, `Signal`,
/// `Cause`, `PutMsg`, `GetMsg` and `ReplyMsg`, shared variables and no labels. A name that is where a word asks for a
/// software interrupt is that of one of the file.
///
/// # Errors
///
/// The first faulty place decides. First the whole tree is judged: the keys of the file, then `version`, `quantum`,
/// `tick_micros` and `pool`, then `region`, `library`, `softint`, `server` and `task` (`BadValue` if it is not an
/// array, `TooMany` if it is too long), then item by item: `BadValue` if it is not a table, `UnknownKey`, then its keys
/// in the order `base`, `size`, `attrs`, `pri`, or `name`, `version`, `size`, or `name`, `pri`, `code`, or `name`,
/// `source`, `pri`, `claim`, `code`, or `name`, `pri`, `start`, `code`, each `MissingKey` or `BadValue`, with
/// `NameTwice` right after the name and `TooMany` after a `code` of strings. `BadRegions` comes after the last region,
/// if `memlist::check_regions` refuses them, which in version 1 may have 1,048,576 bytes in all, and in version 2 may
/// have 4,194,304. Then the bodies of all software interrupts, of all servers and of all tasks are judged: in each,
/// line by line, `BadCommand`, `NotInInterrupt` for what is right in a task and may not be in the body of an interrupt,
/// `BadLabel` for a label that is twice and `TooMany` for a variable past its limit, and after its last line `BadLabel`
/// for a jump whose label the body lacks. `NotToml` comes before all else, and `OutOfMemory` may come wherever memory
/// is refused.
///
/// The format is a project rule.
pub fn read_machine(alloc: Global, bytes: &[u8]) -> Result<MachineFile, FileFault>
    ensures { MatchResult result (λ m. file_of bytes.now ≡ Ok m) (λ f. ¬ (f ≡ FileFault.OutOfMemory) → file_of bytes.now ≡ Err f) }
{
    match read_listed(alloc, bytes) {
        Err(fault) => Err(fault),
        Ok(listed) => Ok(listed.machine),
    }
}
