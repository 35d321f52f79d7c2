//! Members of the tree of a machine file.

use taskscript::{member, total_of};
use toml::{Table, Value};

/// What the key of an item holds, if it is a table.
pub fn member_of<'a>(item: &'a Value, key: &str) -> Option<&'a Value> {
    member(item.as_table()?, key)
}

/// The name of an item, or the empty text.
pub fn name_of(item: &Value) -> &str {
    match member_of(item, "name") {
        None => "",
        Some(value) => value.as_str().unwrap_or(""),
    }
}

/// The number, from 0, of the first of some items that has that name.
pub fn position_named(items: &[Value], name: &str) -> Option<usize> {
    items.iter().position(|item| name == name_of(item))
}

/// The bytes that the regions of a file may have together, by its version.
pub fn total_at(table: &Table) -> u32 {
    match member(table, "version") {
        Some(value) if value.as_integer().unwrap_or(1) != 1 => total_of(2),
        _ => total_of(1),
    }
}
