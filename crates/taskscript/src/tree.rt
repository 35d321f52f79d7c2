//! Places of the tree that a text states: the document, the keys of a table, and what a key holds.
ghost use Rattle.std.specs.Prelude.{◌≡◌, ◌≤◌, pos, Some, None, true, codes, option_map, map, bytes_eq, int_le, IfOk, IfErr};
ghost use Rattle.std.specs.List.{list_any};
ghost use Rattle.toml.specs.Data.{get_member};
ghost use Rattle.toml.specs.View.{table_view, view, items_view};
ghost use Rattle.taskscript.specs.Tree.{keys_are_among, required, optional, integer_faults, pri_faults, is_softint_pri, softint_pri_faults, source_faults, boolean_faults, integer_or, pri_in, source_in, number_or, boolean_or, items_or_none, document_of, are_strings};
ghost use Rattle.taskscript.specs.{Faults.Judges, Places.at, Places.key_at, Places.key_text, Records.DocumentFault};
ghost use Rattle.taskscript.specs.declared.place.Key.TheVariants as a_key;

use crate::fault::FileFault;
use crate::place::{Key, TablePlace};
use crate::refused::{Refused, at_file, at_key};
use script::Source;
use std::alloc::Global;
use toml::{Table, Value};

/// The tree that the bytes state. Bytes that are no UTF-8 state none.
pub fn document(alloc: Global, bytes: &[u8]) -> Result<Table, Refused>
    ensures ok { IfOk result (λ t. document_of bytes.now ≡ Some (table_view t)) }
    ensures err { IfErr result (λ r. DocumentFault r bytes.now) }
{
    match toml::table_from_slice(alloc, bytes) {
        Ok(table) => Ok(table),
        Err(error) => {
            if error.is_memory() {
                Err(at_file(FileFault::OutOfMemory))
            } else {
                Err(at_file(FileFault::NotToml))
            }
        }
    }
}

/// What the key holds.
pub fn member<'a>(table: &'a Table, key: &str) -> Option<&'a Value>
    ensures { option_map (λ v. view v.now) result ≡ get_member key.now (table_view table.now) }
{
    table.get(key)
}

fn is_among(listed: &[&str], key: &str) -> bool
    ensures { result ≡ list_any (λ k. bytes_eq key.now k.now) listed.now }
{
    listed.iter().any(|k| key == *k)
}

/// Whether each key of the table is one of those listed.
pub fn has_only(table: &Table, listed: &[&str]) -> bool
    ensures { result ≡ keys_are_among (map (λ k. k.now) listed.now) (table_view table.now) }
{
    for (key, _value) in table {
        if !is_among(listed, key.as_str()) {
            return false;
        }
    }
    true
}

/// The integer from `low` to `high` that the key holds, or `otherwise` if the key is absent.
fn optional_integer(
    of: TablePlace,
    key: Key,
    table: &Table,
    low: i64,
    high: i64,
    otherwise: i64,
) -> Result<i64, Refused>
    requires low_in { int_le low otherwise ≡ true }
    requires high_in { int_le otherwise high ≡ true }
    ensures exact { Judges result (at (key_at of key) (optional (integer_faults low high) (get_member (key_text key) (table_view table.now)))) (λ z. z ≡ integer_or otherwise (get_member (key_text key) (table_view table.now))) }
    ensures low_out { IfOk result (λ z. int_le low z ≡ true) }
    ensures high_out { IfOk result (λ z. int_le z high ≡ true) }
{
    match member(table, key.text()) {
        None => Ok(otherwise),
        Some(value) => match value.as_integer() {
            None => Err(at_key(of, key, FileFault::BadValue)),
            Some(z) => {
                if low <= z && z <= high {
                    Ok(z)
                } else {
                    Err(at_key(of, key, FileFault::BadValue))
                }
            }
        },
    }
}

/// The priority that the key `pri` holds, or 0 if it is absent.
pub fn optional_pri(of: TablePlace, table: &Table) -> Result<i8, Refused>
    ensures { Judges result (at (key_at of a_key.Pri) (pri_faults (table_view table.now))) (λ p. p ≡ pri_in (table_view table.now)) }
{
    let pri = optional_integer(of, Key::Pri, table, -128, 127, 0)?;
    Ok(pri as i8)
}

/// The number from `low` to `high` that the key holds, or `otherwise` if the key is absent.
pub fn optional_number(
    of: TablePlace,
    key: Key,
    table: &Table,
    low: u32,
    high: u32,
    otherwise: u32,
) -> Result<u32, Refused>
    requires low_in { low ≤ otherwise }
    requires high_in { otherwise ≤ high }
    ensures exact { Judges result (at (key_at of key) (optional (integer_faults (pos low) (pos high)) (get_member (key_text key) (table_view table.now)))) (λ n. n ≡ number_or otherwise (get_member (key_text key) (table_view table.now))) }
    ensures low_out { IfOk result (λ n. low ≤ n) }
    ensures high_out { IfOk result (λ n. n ≤ high) }
{
    let number = optional_integer(
        of,
        key,
        table,
        i64::from(low),
        i64::from(high),
        i64::from(otherwise),
    )?;
    Ok(number as u32)
}

/// The number from `low` to `high` that the key holds.
pub fn required_number(
    of: TablePlace,
    key: Key,
    table: &Table,
    low: u32,
    high: u32,
) -> Result<u32, Refused>
    ensures exact { Judges result (at (key_at of key) (required (integer_faults (pos low) (pos high)) (get_member (key_text key) (table_view table.now)))) (λ n. n ≡ number_or 0 (get_member (key_text key) (table_view table.now))) }
    ensures low_out { IfOk result (λ n. low ≤ n) }
    ensures high_out { IfOk result (λ n. n ≤ high) }
{
    let value = match member(table, key.text()) {
        None => return Err(at_key(of, key, FileFault::MissingKey)),
        Some(value) => value,
    };
    match value.as_integer() {
        None => Err(at_key(of, key, FileFault::BadValue)),
        Some(z) => {
            if i64::from(low) <= z && z <= i64::from(high) {
                Ok(z as u32)
            } else {
                Err(at_key(of, key, FileFault::BadValue))
            }
        }
    }
}

/// Whether a software interrupt may have that priority: -32, -16, 0, 16 or 32 (RKM Libraries, Exec Interrupts).
pub fn is_softint_pri(pri: i64) -> bool
    ensures { result ≡ is_softint_pri pri }
{
    pri == -32 || (pri == -16 || (pri == 0 || (pri == 16 || pri == 32)))
}

/// The priority of a software interrupt, which the key `pri` holds: -32, -16, 0, 16 or 32 (RKM Libraries, Exec
/// Interrupts).
pub fn softint_pri(of: TablePlace, table: &Table) -> Result<i8, Refused>
    ensures { Judges result (at (key_at of a_key.Pri) (required softint_pri_faults (get_member (codes "pri") (table_view table.now)))) (λ p. p ≡ pri_in (table_view table.now)) }
{
    let value = match member(table, "pri") {
        None => return Err(at_key(of, Key::Pri, FileFault::MissingKey)),
        Some(value) => value,
    };
    match value.as_integer() {
        None => Err(at_key(of, Key::Pri, FileFault::BadValue)),
        Some(z) => {
            if is_softint_pri(z) {
                Ok(z as i8)
            } else {
                Err(at_key(of, Key::Pri, FileFault::BadValue))
            }
        }
    }
}

/// The source whose name the key `source` holds.
pub fn required_source(of: TablePlace, table: &Table) -> Result<Source, Refused>
    ensures { Judges result (at (key_at of a_key.Source) (required source_faults (get_member (codes "source") (table_view table.now)))) (λ s. s ≡ source_in (table_view table.now)) }
{
    let value = match member(table, "source") {
        None => return Err(at_key(of, Key::Source, FileFault::MissingKey)),
        Some(value) => value,
    };
    let name = match value.as_str() {
        None => return Err(at_key(of, Key::Source, FileFault::BadValue)),
        Some(name) => name,
    };
    match Source::named(name) {
        None => Err(at_key(of, Key::Source, FileFault::BadValue)),
        Some(source) => Ok(source),
    }
}

/// The boolean that the key holds, or `otherwise` if the key is absent.
pub fn optional_boolean(
    of: TablePlace,
    key: Key,
    table: &Table,
    otherwise: bool,
) -> Result<bool, Refused>
    ensures { Judges result (at (key_at of key) (optional boolean_faults (get_member (key_text key) (table_view table.now)))) (λ b. b ≡ boolean_or otherwise (get_member (key_text key) (table_view table.now))) }
{
    match member(table, key.text()) {
        None => Ok(otherwise),
        Some(value) => match value.as_bool() {
            None => Err(at_key(of, key, FileFault::BadValue)),
            Some(b) => Ok(b),
        },
    }
}

/// The items of the array that the key holds, or none.
pub fn items_at<'a>(table: &'a Table, key: &str) -> &'a [Value]
    ensures { items_view result.now ≡ items_or_none (get_member key.now (table_view table.now)) }
{
    let value = match member(table, key) {
        None => return &[],
        Some(value) => value,
    };
    match value.as_array() {
        None => &[],
        Some(items) => items,
    }
}

/// Whether the items are strings.
pub fn are_strings(items: &[Value]) -> bool
    ensures { result ≡ are_strings (items_view items.now) }
{
    for item in items {
        if !item.is_str() {
            return false;
        }
    }
    true
}
