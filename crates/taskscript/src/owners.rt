//! The software interrupts, the servers and the tasks of a machine file. A first pass judges the tree and keeps the
//! heads of all of them, and a second one reads their bodies, in the order of the file.
ghost use Rattle.std.specs.Prelude.{◌≡◌, ◌≤◌, length, take, map, IfOk, OnOk};
ghost use Rattle.toml.specs.View.{table_view, view, items_view};
ghost use Rattle.script.specs.Names.{texts};
ghost use Rattle.taskscript.specs.{Code.lines_in, Code.body_faults, Code.shared_after, Faults.Judges, File.code_lines, File.bodies_faults, File.with_bodies, File.shared_after_bodies, File.owners_faults, File.lines_of_all_faults, File.both_passes_faults, Listings.owner_listing, Records.setting_view, Records.made_of, Records.AreHeads, Records.AreOwners, Tree.of_items};

use crate::code::read_code;
use crate::heads::{Head, ServerHead, SoftintHead, TaskHead, heads_at};
use crate::interrupting::Setting;
use crate::listing::{BodyListing, Listing};
use crate::place::{Array, Owner};
use crate::refused::Refused;
use crate::tree::items_at;
use crate::variable::VariableName;
use indexmap::IndexSet;
use script::{Name, ServerRecord, SoftintRecord, TaskRecord};
use std::alloc::Global;
use toml::{Table, Value};

/// The lines of what has a `code`, or none.
///
/// Source: project rule.
pub fn lines_of(owner: &Value) -> &[Value]
    ensures { lines_in (items_view result.now) ≡ code_lines (view owner.now) }
{
    match owner.as_table() {
        None => &[],
        Some(table) => items_at(table, "code"),
    }
}

// What has a body, and the listing of its body.
fn record_of<H: Head>(
    alloc: Global,
    owner: Owner,
    number: usize,
    setting: Setting<'_>,
    head: H,
    item: &Value,
    shared: &mut IndexSet<VariableName>,
) -> Result<(H::Record, BodyListing), Refused>
    requires { H.head_view head ≡ H.head_of (view item.now) }
    ensures judged { Judges result (body_faults owner number (setting_view setting.entry) (texts shared.old.keys) (code_lines (view item.now))) (λ r. H.record_view r.0 ≡ made_of H.with (texts shared.old.keys) (view item.now)) }
    ensures listing { IfOk result (λ r. r.1 ≡ owner_listing (texts shared.old.keys) (view item.now)) }
    ensures shared { OnOk result (texts shared.new.keys ≡ shared_after (texts shared.old.keys) (code_lines (view item.now))) }
{
    let code = read_code(alloc, owner, number, setting, lines_of(item), shared)?;
    Ok((head.with_code(code.commands), code.listing))
}

/// The second pass over the items of an array, whose heads the first one kept.
fn records_of<H: Head>(
    alloc: Global,
    owner: Owner,
    setting: Setting<'_>,
    heads: &[H],
    items: &[Value],
    shared: &mut IndexSet<VariableName>,
) -> Result<(Vec<H::Record>, Vec<BodyListing>), Refused>
    requires { map H.head_view heads.now ≡ of_items H.head_of (items_view items.now) }
    ensures judged { Judges result (bodies_faults owner 0 (setting_view setting.entry) (texts shared.old.keys) (items_view items.now)) (λ rs. map H.record_view rs.0.items ≡ with_bodies (made_of H.with) (texts shared.old.keys) (items_view items.now)) }
    ensures listings { IfOk result (λ rs. rs.1.items ≡ with_bodies owner_listing (texts shared.old.keys) (items_view items.now)) }
    ensures shared { OnOk result (texts shared.new.keys ≡ shared_after_bodies (texts shared.old.keys) (items_view items.now)) }
{
    let mut records = Vec::new(alloc);
    let mut listings = Vec::new(alloc);
    for (i, item) in items.iter().enumerate() {
        let record = record_of(alloc, owner, i, setting, heads[i], item, shared)?;
        records.push(record.0)?;
        listings.push(record.1)?;
    }
    Ok((records, listings))
}

/// The heads of all that has a name and a code, with their names in the order of the file.
#[derive(Drop)]
struct Heads {
    softints: Vec<SoftintHead>,
    servers: Vec<ServerHead>,
    tasks: Vec<TaskHead>,
    names: Vec<Name>,
}

/// The first pass.
fn heads_in(alloc: Global, table: &Table) -> Result<Heads, Refused>
    ensures { Judges result (owners_faults (table_view table.now)) (λ hs. AreHeads hs (table_view table.now)) }
{
    let mut names = Vec::new(alloc);
    let softints = heads_at(alloc, table, Array::Softint, &mut names)?;
    let servers = heads_at(alloc, table, Array::Server, &mut names)?;
    let tasks = heads_at(alloc, table, Array::Task, &mut names)?;
    Ok(Heads {
        softints,
        servers,
        tasks,
        names,
    })
}

/// All that has a name and a code, and the listing of all bodies.
#[derive(Drop)]
pub struct Owners {
    pub softints: Vec<SoftintRecord>,
    pub servers: Vec<ServerRecord>,
    pub tasks: Vec<TaskRecord>,
    pub listing: Listing,
}

fn front(names: &[Name], count: usize) -> &[Name]
    requires { count ≤ length names.now }
    ensures { result.now ≡ take count names.now }
{
    &names[..count]
}

/// The second pass.
fn owners_in(alloc: Global, table: &Table, heads: &Heads) -> Result<Owners, Refused>
    requires { AreHeads heads.now (table_view table.now) }
    ensures { Judges result (lines_of_all_faults (table_view table.now)) (λ o. AreOwners o (table_view table.now)) }
{
    let softints = front(&heads.names, heads.softints.len());
    let of_interrupt = Setting {
        of_interrupt: true,
        softints,
    };
    let of_task = Setting {
        of_interrupt: false,
        softints,
    };
    let mut shared = IndexSet::new(alloc);
    let softints = records_of(
        alloc,
        Owner::Softint,
        of_interrupt,
        &heads.softints,
        items_at(table, "softint"),
        &mut shared,
    )?;
    let servers = records_of(
        alloc,
        Owner::Server,
        of_interrupt,
        &heads.servers,
        items_at(table, "server"),
        &mut shared,
    )?;
    let tasks = records_of(
        alloc,
        Owner::Task,
        of_task,
        &heads.tasks,
        items_at(table, "task"),
        &mut shared,
    )?;
    Ok(Owners {
        softints: softints.0,
        servers: servers.0,
        tasks: tasks.0,
        listing: Listing {
            softints: softints.1,
            servers: servers.1,
            tasks: tasks.1,
            shared,
        },
    })
}

/// The software interrupts, the servers and the tasks of a file, by both passes.
pub fn owners_at(alloc: Global, table: &Table) -> Result<Owners, Refused>
    ensures { Judges result (both_passes_faults (table_view table.now)) (λ o. AreOwners o (table_view table.now)) }
{
    let heads = heads_in(alloc, table)?;
    owners_in(alloc, table, &heads)
}
