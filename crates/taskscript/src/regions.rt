//! The regions of a machine file: the items of its array `region`, and the check of all of them together.
ghost use Rattle.std.specs.Prelude.{◌≡◌, codes, is_none};
ghost use Rattle.memlist.specs.Regions.{regions_fault};
ghost use Rattle.toml.specs.Data.{table as a_table, get_member};
ghost use Rattle.toml.specs.View.{table_view, view, items_view};
ghost use Rattle.script.specs.File.{total_of};
ghost use Rattle.taskscript.specs.{Faults.Judges, File.region_faults, File.region_item_faults, File.region_of, File.regions_of, File.regions_faults, File.regions_in, Tree.optional, Tree.array_faults, Tree.items_faults};
ghost use Rattle.taskscript.specs.declared.place.Array.TheVariants as array;

use crate::fault::FileFault;
use crate::place::{Array, Key, TablePlace};
use crate::refused::{Refused, at_array, no_table, unknown_key};
use crate::tree::{has_only, member, optional_number, optional_pri, required_number};
use memlist::{Region, check_regions};
use std::alloc::Global;
use toml::{Table, Value};

/// The region of a table, whose keys and values are judged in their order.
fn region_in(of: TablePlace, table: &Table) -> Result<Region, Refused>
    ensures { Judges result (region_faults of (table_view table.now)) (λ r. r ≡ region_of (a_table (table_view table.now))) }
{
    if !has_only(table, &["base", "size", "attrs", "pri"]) {
        return Err(unknown_key(of));
    }
    let base = required_number(of, Key::Base, table, 0, 4_294_967_295)?;
    let size = required_number(of, Key::Size, table, 0, 4_294_967_295)?;
    let attrs = optional_number(of, Key::Attrs, table, 0, 7, 1)?;
    let pri = optional_pri(of, table)?;
    Ok(Region {
        base,
        size,
        attrs,
        pri,
    })
}

fn region_of(number: usize, value: &Value) -> Result<Region, Refused>
    ensures { Judges result (region_item_faults number (view value.now)) (λ r. r ≡ region_of (view value.now)) }
{
    match value.as_table() {
        None => Err(no_table(Array::Region, number)),
        Some(table) => region_in(TablePlace::Item(Array::Region, number), table),
    }
}

fn regions_of(alloc: Global, items: &[Value]) -> Result<Vec<Region>, Refused>
    ensures { Judges result (items_faults region_item_faults 0 (items_view items.now)) (λ rs. rs.items ≡ regions_of (items_view items.now)) }
{
    let mut regions = Vec::new(alloc);
    for (i, item) in items.iter().enumerate() {
        let region = region_of(i, item)?;
        regions.push(region)?;
    }
    Ok(regions)
}

/// The items of the array that the key `region` holds, or none.
#[tactic(auto, using(crate::proofs::Keys::count_items_view))]
fn listed_regions(alloc: Global, table: &Table) -> Result<Vec<Region>, Refused>
    ensures { Judges result (optional (array_faults array.Region (items_faults region_item_faults 0)) (get_member (codes "region") (table_view table.now))) (λ rs. rs.items ≡ regions_in (table_view table.now)) }
{
    let value = match member(table, Array::Region.key()) {
        None => return Ok(Vec::new(alloc)),
        Some(value) => value,
    };
    let items = match value.as_array() {
        None => return Err(at_array(Array::Region, FileFault::BadValue)),
        Some(items) => items,
    };
    if items.len() > Array::Region.limit() {
        return Err(at_array(Array::Region, FileFault::TooMany));
    }
    regions_of(alloc, items)
}

/// The bytes that all regions of a machine file of a version may have together: 1,048,576 in version 1, and 4,194,304
/// in any other (project rule).
pub fn total_of(version: u8) -> u32
    ensures { result ≡ total_of version }
{
    if version == 1 { 1_048_576 } else { 4_194_304 }
}

/// The regions of a file's top table, in their order, which are judged together after the last of them: they may have
/// `total` bytes in all.
///
/// The first fault of the array `region` is answered: of the array itself, of an item, or `BadRegions` of all together;
/// `OutOfMemory` may come wherever memory is refused. The format is a project rule.
pub fn regions_at(alloc: Global, table: &Table, total: u32) -> Result<Vec<Region>, Refused>
    ensures { Judges result (regions_faults total (table_view table.now)) (λ rs. rs.items ≡ regions_in (table_view table.now)) }
{
    let regions = listed_regions(alloc, table)?;
    if check_regions(&regions, total).is_err() {
        return Err(at_array(Array::Region, FileFault::BadRegions));
    }
    Ok(regions)
}
