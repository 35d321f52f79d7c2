//! Whether the numbers of a report fit together, as those of each report do that a search makes.
ghost use Rattle.std.specs.Prelude.{◌≡◌, ◌≤◌, ◌<◌, ◌^◌, [], true, All, IfErr, IfNone, IfOk, IfSome, IsErr, OnOk, map};
ghost use Rattle.ways.specs.Tables.{merged, total};
ghost use Rattle.wayreport.specs.{Parts.AreFew, Parts.IsWindow, Parts.ways_of, Reports.found_view, Reports.report_view, Right.IsRight};
ghost use Rattle.wayreport.specs.declared.reading.ReportFault.TheVariants.{OutOfMemory as NoMemory};
ghost use Rattle.wayreport.specs.declared.sum.SumFault.TheVariants.{OutOfMemory};

use crate::reading::ReportFault;
use crate::report::{Found, Part, Report};
use crate::sum::{SumFault, merge};
use crate::total::Total;
use std::alloc::Global;
use ways::part_window;

/// How many ways a search has at most.
const MOST_WAYS: u64 = 1_099_511_627_776;

/// How many parts a search has at most.
const MOST_PARTS: u32 = 1_000_000;

/// Whether a part has as many ways as the part of its number.
fn has_its_ways(part: Part, all: u64) -> bool
    ensures is { result ≡ true → IsWindow (Some part) all }
    ensures other { IsWindow (Some part) all → AreFew (Some part) all → result ≡ true }
{
    if part.number == 0 || part.number > part.of || part.of > MOST_PARTS || all > MOST_WAYS {
        return false;
    }
    let window = part_window(all, part.number as u64, part.of as u64);
    window.left == part.ways
}

/// Whether a part is one of all ways; all of them are.
fn is_window(part: Option<Part>, all: u64) -> bool
    ensures is { result ≡ true → IsWindow part all }
    ensures other { IsWindow part all → AreFew part all → result ≡ true }
{
    match part {
        None => true,
        Some(part) => has_its_ways(part, all),
    }
}

/// How many ways a report is of.
fn ways_of(part: Option<Part>, all: u64) -> u64
    ensures { result ≡ ways_of part all }
{
    match part {
        None => all,
        Some(part) => part.ways,
    }
}

/// How many ways some outcomes count, if that fits 64 bits.
fn total_of(found: &[Found]) -> Option<u64>
    ensures some { IfSome result (λ ways. ways ≡ total (map found_view found.now)) }
    ensures none { IfNone result (2 ^ 64 ≤ total (map found_view found.now)) }
{
    let mut ways: u64 = 0;
    for one in found {
        match ways.checked_add(one.count) {
            None => return None,
            Some(more) => ways = more,
        }
    }
    Some(ways)
}

/// Refuses an outcome that no way shows.
fn check_counts(found: &[Found]) -> Result<(), ReportFault>
    ensures ok { OnOk result (All (λ e. 1 ≤ e.count) (map found_view found.now)) }
    ensures err { IsErr result → ¬ All (λ e. 1 ≤ e.count) (map found_view found.now) }
{
    for i in 0..found.len() {
        if found[i].count == 0 {
            return Err(ReportFault::NotAReport);
        }
    }
    Ok(())
}

/// The outcomes, each text once.
fn merged_of(alloc: Global, found: &[Found]) -> Result<Total, SumFault>
    ensures ok { IfOk result (λ total. total ≡ merged [] (map found_view found.now)) }
    ensures err { IfErr result (λ fault. ¬ (fault ≡ OutOfMemory) → 2 ^ 64 ≤ total (map found_view found.now)) }
{
    let mut total = Total::new(alloc);
    merge(alloc, &mut total, found)?;
    Ok(total)
}

/// Whether some outcomes are all different.
fn is_distinct(total: &Total, found: &[Found]) -> bool
    requires { total.now ≡ merged [] (map found_view found.now) }
    ensures is { result ≡ true → merged [] (map found_view found.now) ≡ map found_view found.now }
    ensures other { merged [] (map found_view found.now) ≡ map found_view found.now → result ≡ true }
{
    total.len() == found.len()
}

/// Refuses outcomes of which two are the same text.
fn check_distinct(alloc: Global, found: &[Found]) -> Result<(), ReportFault>
    ensures ok { OnOk result (merged [] (map found_view found.now) ≡ map found_view found.now) }
    ensures err { total (map found_view found.now) < 2 ^ 64 → merged [] (map found_view found.now) ≡ map found_view found.now
        → IfErr result (λ fault. fault ≡ NoMemory) }
{
    match merged_of(alloc, found) {
        Ok(total) if is_distinct(&total, found) => Ok(()),
        Err(SumFault::OutOfMemory) => Err(ReportFault::OutOfMemory),
        _ => Err(ReportFault::NotAReport),
    }
}

/// Whether a report counts each of its ways once, and no more alerts than ways.
fn is_complete(report: &Report) -> bool
    ensures counts { result ≡ true → total (map found_view report.now.found.items) ≡ ways_of report.now.part report.now.all }
    ensures alerts { result ≡ true → report.now.alerts ≤ ways_of report.now.part report.now.all }
    ensures other { total (map found_view report.now.found.items) ≡ ways_of report.now.part report.now.all
        → report.now.alerts ≤ ways_of report.now.part report.now.all → result ≡ true }
{
    let ways = ways_of(report.part, report.all);
    match total_of(report.found.as_slice()) {
        None => false,
        Some(counted) => counted == ways && report.alerts <= ways,
    }
}

/// Refuses a report whose numbers do not fit together.
///
/// # Errors
///
/// `NotAReport`, and `OutOfMemory`.
pub fn check_right(alloc: Global, report: &Report) -> Result<(), ReportFault>
    ensures ok { OnOk result (IsRight (report_view report.now)) }
    ensures err { IsRight (report_view report.now) → AreFew report.now.part report.now.all → IfErr result (λ fault. fault ≡ NoMemory) }
{
    if !is_window(report.part, report.all) || !is_complete(report) {
        return Err(ReportFault::NotAReport);
    }
    check_counts(report.found.as_slice())?;
    check_distinct(alloc, report.found.as_slice())
}
