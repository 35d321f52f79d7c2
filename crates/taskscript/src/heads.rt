//! The libraries of a machine file, and the first pass over its software interrupts, its servers and its tasks: it
//! judges the tree, and keeps a head of each item.
ghost use Rattle.std.specs.Prelude.{◌≡◌, ◌++◌, ◌∷◌, [], Some, None, ℕ, List, codes, map, OnOk};
ghost use Rattle.toml.specs.Data.{Data, Members, table as a_table, get_member};
ghost use Rattle.toml.specs.View.{table_view, view, items_view};
ghost use Rattle.script.specs.Records.{library_view, softint_view, server_view, task_view};
ghost use Rattle.taskscript.specs.Records.{softint_head_view, server_head_view, task_head_view, softint_head_of, server_head_of, task_head_of, softint_with, server_with, task_with};
ghost use Rattle.script.specs.{Commands.CommandData, Commands.command_view, File.LibraryData, File.SoftintData, File.ServerData, File.TaskData, Names.texts};
ghost use Rattle.taskscript.specs.{Faults.Judges, File.library_faults, File.library_of, File.softint_faults, File.server_faults, File.task_faults, File.named_faults, File.named_item_faults, File.name_in_table, File.item_names, Tree.required, Tree.optional, Tree.name_faults, Tree.string_or_nothing, Tree.code_faults, Tree.array_faults, Tree.items_or_none, Tree.of_items, Places.array_key, Places.at, Places.key_at, declared.place.TablePlace.TablePlace, declared.refused.Refused.Refused};
ghost use Rattle.taskscript.specs.declared.place.Key.TheVariants as a_key;

use crate::fault::FileFault;
use crate::name::is_among;
use crate::place::{Array, Key, TablePlace};
use crate::refused::{Refused, at_array, at_key, no_table, unknown_key};
use crate::tree::{
    are_strings, has_only, member, optional_boolean, optional_pri, required_number,
    required_source, softint_pri,
};
use script::{
    Command, LibraryRecord, Name, ServerRecord, SoftintRecord, Source, TaskRecord, is_name,
};
use std::alloc::Global;
use toml::{Table, Value};

/// What the first pass keeps of an item that has a name.
pub trait Named: Copy {
    /// The data that it represents.
    ghost Shown: { Type 0 };

    /// The faults of an item's table of that place after the names before it.
    ghost faults: { TablePlace → List (List ℕ) → Members → List Refused };

    /// What it represents.
    ghost head_view: { Self → Shown };

    /// The one of an item.
    ghost head_of: { Data → Shown };

    /// Judges the keys and the values of an item in their order, the name after those before it, and adds it to them.
    fn head_in(of: TablePlace, table: &Table, names: &mut Vec<Name>) -> Result<Self, Refused>
        ensures judged { Judges result (faults of (texts names.old.items) (table_view table.now)) (λ h. head_view h ≡ head_of (a_table (table_view table.now))) }
        ensures names { OnOk result (texts names.new.items ≡ texts names.old.items ++ name_in_table (a_table (table_view table.now)) ∷ []) };
}

/// What the first pass keeps of an item that has a name and a code.
pub trait Head: Named {
    /// What it is with its code.
    type Record: Drop;

    /// The data that it represents with its code.
    ghost Whole: { Type 0 };

    /// What a record represents.
    ghost record_view: { Self.Record → Whole };

    /// The one of an item, with those commands.
    ghost with: { Data → List CommandData → Whole };

    /// What it is with its code: the head of an item becomes that item with these commands.
    fn with_code(self, code: Vec<Command>) -> Self::Record
        ensures { (item : Data) → Self.head_view self ≡ Self.head_of item → record_view result ≡ with item (map command_view code.items) };
}

/// What the first pass keeps of a software interrupt.
#[derive(Clone, Copy)]
pub struct SoftintHead {
    pub name: Name,
    pub pri: i8,
}

/// What the first pass keeps of a server.
#[derive(Clone, Copy)]
pub struct ServerHead {
    pub name: Name,
    pub source: Source,
    pub pri: i8,
    pub claim: bool,
}

/// What the first pass keeps of a task.
#[derive(Clone, Copy)]
pub struct TaskHead {
    pub name: Name,
    pub pri: i8,
    pub start: bool,
}

/// The name that the key `name` holds, which is to be none of those before it, and is added to them.
fn name_at(of: TablePlace, table: &Table, names: &mut Vec<Name>) -> Result<Name, Refused>
    ensures judged { Judges result (at (key_at of a_key.Name) (required (name_faults (texts names.old.items)) (get_member (codes "name") (table_view table.now)))) (λ n. n.bytes ≡ string_or_nothing (get_member (codes "name") (table_view table.now))) }
    ensures names { OnOk result (texts names.new.items ≡ texts names.old.items ++ string_or_nothing (get_member (codes "name") (table_view table.now)) ∷ []) }
{
    let value = match member(table, "name") {
        None => return Err(at_key(of, Key::Name, FileFault::MissingKey)),
        Some(value) => value,
    };
    let text = match value.as_str() {
        None => return Err(at_key(of, Key::Name, FileFault::BadValue)),
        Some(text) => text,
    };
    if !is_name(text.as_bytes()) {
        return Err(at_key(of, Key::Name, FileFault::BadValue));
    }
    if is_among(names, text) {
        return Err(at_key(of, Key::Name, FileFault::NameTwice));
    }
    match Name::from(text) {
        Ok(name) => {
            names.push(name)?;
            Ok(name)
        }
        Err(_) => Err(at_key(of, Key::Name, FileFault::BadValue)),
    }
}

/// Judges the array that the key `code` holds: strings first, then their number.
#[tactic(auto, using(crate::proofs::Keys::count_items_view))]
fn check_code(of: TablePlace, table: &Table) -> Result<(), Refused>
    ensures { Judges result (at (key_at of a_key.Code) (required code_faults (get_member (codes "code") (table_view table.now)))) (λ _. Unit {0}) }
{
    let value = match member(table, "code") {
        None => return Err(at_key(of, Key::Code, FileFault::MissingKey)),
        Some(value) => value,
    };
    let items = match value.as_array() {
        None => return Err(at_key(of, Key::Code, FileFault::BadValue)),
        Some(items) => items,
    };
    if !are_strings(items) {
        return Err(at_key(of, Key::Code, FileFault::BadValue));
    }
    if items.len() > 1024 {
        return Err(at_key(of, Key::Code, FileFault::TooMany));
    }
    Ok(())
}

impl Named for SoftintHead {
    ghost Shown = { SoftintData };

    ghost faults = { softint_faults };

    ghost head_view = { softint_head_view };

    ghost head_of = { softint_head_of };

    fn head_in(
        of: TablePlace,
        table: &Table,
        names: &mut Vec<Name>,
    ) -> Result<SoftintHead, Refused> {
        if !has_only(table, &["name", "pri", "code"]) {
            return Err(unknown_key(of));
        }
        let name = name_at(of, table, names)?;
        let pri = softint_pri(of, table)?;
        check_code(of, table)?;
        Ok(SoftintHead { name, pri })
    }
}

impl Head for SoftintHead {
    type Record = SoftintRecord;

    ghost Whole = { SoftintData };

    ghost record_view = { softint_view };

    ghost with = { softint_with };

    fn with_code(self, code: Vec<Command>) -> SoftintRecord {
        SoftintRecord {
            name: self.name,
            pri: self.pri,
            code,
        }
    }
}

impl Named for ServerHead {
    ghost Shown = { ServerData };

    ghost faults = { server_faults };

    ghost head_view = { server_head_view };

    ghost head_of = { server_head_of };

    fn head_in(
        of: TablePlace,
        table: &Table,
        names: &mut Vec<Name>,
    ) -> Result<ServerHead, Refused> {
        if !has_only(table, &["name", "source", "pri", "claim", "code"]) {
            return Err(unknown_key(of));
        }
        let name = name_at(of, table, names)?;
        let source = required_source(of, table)?;
        let pri = optional_pri(of, table)?;
        let claim = optional_boolean(of, Key::Claim, table, false)?;
        check_code(of, table)?;
        Ok(ServerHead {
            name,
            source,
            pri,
            claim,
        })
    }
}

impl Head for ServerHead {
    type Record = ServerRecord;

    ghost Whole = { ServerData };

    ghost record_view = { server_view };

    ghost with = { server_with };

    fn with_code(self, code: Vec<Command>) -> ServerRecord {
        ServerRecord {
            name: self.name,
            source: self.source,
            pri: self.pri,
            claim: self.claim,
            code,
        }
    }
}

impl Named for TaskHead {
    ghost Shown = { TaskData };

    ghost faults = { task_faults };

    ghost head_view = { task_head_view };

    ghost head_of = { task_head_of };

    fn head_in(of: TablePlace, table: &Table, names: &mut Vec<Name>) -> Result<TaskHead, Refused> {
        if !has_only(table, &["name", "pri", "start", "code"]) {
            return Err(unknown_key(of));
        }
        let name = name_at(of, table, names)?;
        let pri = optional_pri(of, table)?;
        let start = optional_boolean(of, Key::Start, table, true)?;
        check_code(of, table)?;
        Ok(TaskHead { name, pri, start })
    }
}

impl Head for TaskHead {
    type Record = TaskRecord;

    ghost Whole = { TaskData };

    ghost record_view = { task_view };

    ghost with = { task_with };

    fn with_code(self, code: Vec<Command>) -> TaskRecord {
        TaskRecord {
            name: self.name,
            pri: self.pri,
            start: self.start,
            code,
        }
    }
}

impl Named for LibraryRecord {
    ghost Shown = { LibraryData };

    ghost faults = { library_faults };

    ghost head_view = { library_view };

    ghost head_of = { library_of };

    fn head_in(
        of: TablePlace,
        table: &Table,
        names: &mut Vec<Name>,
    ) -> Result<LibraryRecord, Refused> {
        if !has_only(table, &["name", "version", "size"]) {
            return Err(unknown_key(of));
        }
        let name = name_at(of, table, names)?;
        let version = required_number(of, Key::Version, table, 0, 65535)?;
        let size = required_number(of, Key::Size, table, 8, 65536)?;
        Ok(LibraryRecord {
            name,
            version: version as u16,
            size,
        })
    }
}

fn head_of<H: Named>(
    of: Array,
    number: usize,
    value: &Value,
    names: &mut Vec<Name>,
) -> Result<H, Refused>
    ensures judged { Judges result (named_item_faults H.faults of number (texts names.old.items) (view value.now)) (λ h. H.head_view h ≡ H.head_of (view value.now)) }
    ensures names { OnOk result (texts names.new.items ≡ texts names.old.items ++ name_in_table (view value.now) ∷ []) }
{
    match value.as_table() {
        None => Err(no_table(of, number)),
        Some(table) => H::head_in(TablePlace::Item(of, number), table, names),
    }
}

fn heads_of<H: Named>(
    alloc: Global,
    of: Array,
    items: &[Value],
    names: &mut Vec<Name>,
) -> Result<Vec<H>, Refused>
    ensures judged { Judges result (named_faults H.faults of 0 (texts names.old.items) (items_view items.now)) (λ hs. map H.head_view hs.items ≡ of_items H.head_of (items_view items.now)) }
    ensures names { OnOk result (texts names.new.items ≡ texts names.old.items ++ item_names (items_view items.now)) }
{
    let mut heads = Vec::new(alloc);
    for (i, item) in items.iter().enumerate() {
        let head = head_of(of, i, item, names)?;
        heads.push(head)?;
    }
    Ok(heads)
}

/// The heads of the items of the array, at most its limit, or none; their names are added to those before them.
#[tactic(auto, using(crate::proofs::Keys::count_items_view))]
pub fn heads_at<H: Named>(
    alloc: Global,
    table: &Table,
    of: Array,
    names: &mut Vec<Name>,
) -> Result<Vec<H>, Refused>
    ensures judged { Judges result (optional (array_faults of (named_faults H.faults of 0 (texts names.old.items))) (get_member (array_key of) (table_view table.now))) (λ hs. map H.head_view hs.items ≡ of_items H.head_of (items_or_none (get_member (array_key of) (table_view table.now)))) }
    ensures names { OnOk result (texts names.new.items ≡ texts names.old.items ++ item_names (items_or_none (get_member (array_key of) (table_view table.now)))) }
{
    let value = match member(table, of.key()) {
        None => return Ok(Vec::new(alloc)),
        Some(value) => value,
    };
    let items = match value.as_array() {
        None => return Err(at_array(of, FileFault::BadValue)),
        Some(items) => items,
    };
    if items.len() > of.limit() {
        return Err(at_array(of, FileFault::TooMany));
    }
    heads_of(alloc, of, items, names)
}
