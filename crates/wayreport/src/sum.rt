//! The sum of the reports of all parts: the report of the whole.
ghost use Rattle.std.specs.Prelude.{◌≡◌, ◌+◌, ◌≤◌, ◌<◌, ◌^◌, true, All, IfErr, IfOk, IfSome, OnOk, length, map, sum_by, string_bytes};
ghost use Rattle.ways.specs.Tables.{merged, total as total_of_entries};
ghost use Rattle.wayreport.specs.{Reports.found_view, declared.sum.SumFault.TheVariants.OutOfMemory, Sums.IsPartOf, Sums.IsSum, Sums.is_numbered, Sums.outcomes_in, Sums.outcomes_of, Sums.parts_of, Sums.summed};

use crate::report::{Found, Part, Report};
use crate::total::Total;
use std::alloc::{AllocError, AllocFailed, Global};

/// Why reports have no sum. A report is named by its place among those given, from 0.
#[derive(Clone, Copy, PartialEq)]
pub enum SumFault {
    /// Memory was refused.
    OutOfMemory,
    /// There is no report.
    NoReport,
    /// A report is of all ways, and not of a part.
    IsWhole(usize),
    /// A report is of another search than the first: of other texts, or with other options.
    IsOther(usize),
    /// No report is of the part of this number.
    IsMissing(u32),
    /// Two reports are of the same part; this is the second.
    IsRepeated(usize),
    /// The counts have a sum of more than 64 bits.
    TooManyWays,
}

impl From<AllocError> for SumFault {
    ghost from_gives = { λ _ fault. fault ≡ OutOfMemory };

    fn from(_error: AllocError) -> SumFault {
        SumFault::OutOfMemory
    }
}

impl<T: Drop> From<AllocFailed<T>> for SumFault {
    ghost from_gives = { λ _ fault. fault ≡ OutOfMemory };

    fn from(_error: AllocFailed<T>) -> SumFault {
        SumFault::OutOfMemory
    }
}

/// Adds the outcomes of later ways.
pub(crate) fn merge(alloc: Global, total: &mut Total, more: &[Found]) -> Result<(), SumFault>
    ensures ok { OnOk result (total.new ≡ merged total.old (map found_view more.now)) }
    ensures err { IfErr result (λ fault. ¬ (fault ≡ OutOfMemory) → 2 ^ 64 ≤ total_of_entries total.old + total_of_entries (map found_view more.now)) }
{
    for one in more {
        total.add(alloc, one)?;
    }
    Ok(())
}

/// Whether a report is of the part of this number.
fn is_numbered(number: u32, part: Option<Part>) -> bool
    ensures { result ≡ is_numbered number part }
{
    match part {
        None => false,
        Some(part) => part.number == number,
    }
}

/// The report of the part of this number.
#[tactic(auto, using(crate::proofs::Finding::found_here, crate::proofs::Finding::passed))]
fn report_of(reports: &[Report], number: u32) -> Option<&Report>
    ensures { IfSome result (λ report. outcomes_in reports.now number ≡ outcomes_of report.now) }
{
    for i in 0..reports.len() {
        if is_numbered(number, reports[i].part) {
            return Some(&reports[i]);
        }
    }
    None
}

/// Adds the outcomes of the part of this number.
fn merge_part(
    alloc: Global,
    total: &mut Total,
    reports: &[Report],
    number: u32,
) -> Result<(), SumFault>
    ensures { OnOk result (total.new ≡ merged total.old (outcomes_in reports.now number)) }
{
    match report_of(reports, number) {
        None => Err(SumFault::IsMissing(number)),
        Some(report) => merge(alloc, total, report.found.as_slice()),
    }
}

/// The outcomes of the parts from 1 to this number.
fn merge_parts(alloc: Global, reports: &[Report], parts: u32) -> Result<Vec<Found>, SumFault>
    ensures { IfOk result (λ found. map found_view found.items ≡ summed reports.now parts) }
{
    let mut total = Total::new(alloc);
    for before in 0..parts {
        merge_part(alloc, &mut total, reports, before + 1)?;
    }
    Ok(total.into_found(alloc)?)
}

/// The number of parts that a report reports of; 0 for a report of the whole.
fn parts_of(part: Option<Part>) -> u32
    ensures { result ≡ parts_of part }
{
    match part {
        None => 0,
        Some(part) => part.of,
    }
}

/// Whether a report is of one of that many parts of the same search as another.
fn is_part_of(whole: &Report, parts: usize, report: &Report) -> bool
    ensures { result ≡ true → IsPartOf whole.now parts report.now }
{
    report.title.as_str() == whole.title.as_str()
        && report.all == whole.all
        && report.machine.as_str() == whole.machine.as_str()
        && report.events.as_str() == whole.events.as_str()
        && report.see.as_str() == whole.see.as_str()
        && parts_of(report.part) as usize == parts
}

/// Refuses reports that are not all of parts of the same search as another, of that many parts.
fn check_each(whole: &Report, parts: usize, reports: &[Report]) -> Result<(), SumFault>
    ensures { OnOk result (All (IsPartOf whole.now parts) reports.now) }
{
    for i in 0..reports.len() {
        if !is_part_of(whole, parts, &reports[i]) {
            return Err(SumFault::IsOther(i));
        }
    }
    Ok(())
}

/// The number of ways of all parts that end in an alert.
fn alerts_of(reports: &[Report]) -> Result<u64, SumFault>
    ensures { IfOk result (λ alerts. alerts ≡ sum_by (λ r. r.alerts) reports.now) }
{
    let mut alerts: u64 = 0;
    for report in reports {
        match alerts.checked_add(report.alerts) {
            None => return Err(SumFault::TooManyWays),
            Some(more) => alerts = more,
        }
    }
    Ok(alerts)
}

/// A report of the whole with no outcome, of the search that another report is of.
fn whole_of(alloc: Global, report: &Report) -> Result<Report, AllocError>
    ensures title { IfOk result (λ whole. string_bytes whole.title ≡ string_bytes report.now.title) }
    ensures all { IfOk result (λ whole. whole.all ≡ report.now.all) }
    ensures machine { IfOk result (λ whole. string_bytes whole.machine ≡ string_bytes report.now.machine) }
    ensures events { IfOk result (λ whole. string_bytes whole.events ≡ string_bytes report.now.events) }
    ensures see { IfOk result (λ whole. string_bytes whole.see ≡ string_bytes report.now.see) }
    ensures part { IfOk result (λ whole. whole.part ≡ None) }
{
    Ok(Report {
        title: report.title.clone()?,
        all: report.all,
        machine: report.machine.clone()?,
        events: report.events.clone()?,
        see: report.see.clone()?,
        part: None,
        alerts: 0,
        found: Vec::new(alloc),
    })
}

/// Refuses the reports of more parts than those of the search, or of fewer, or of a part twice.
fn check_numbers(reports: &[Report]) -> Result<(), SumFault> {
    for i in 0..reports.len() {
        let Some(part) = reports[i].part else {
            return Err(SumFault::IsWhole(i));
        };
        if reports[..i]
            .iter()
            .any(|report| is_numbered(part.number, report.part))
        {
            return Err(SumFault::IsRepeated(i));
        }
    }
    Ok(())
}

/// The report of the whole, of the reports of all its parts in any order.
///
/// # Errors
///
/// `NoReport`; `IsWhole`, `IsOther`, `IsRepeated` and `IsMissing` name the report, or the part; `OutOfMemory`;
/// `TooManyWays` when a sum has more than 64 bits.
///
/// Source: project rule.
pub fn sum_reports(alloc: Global, reports: &[Report]) -> Result<Report, SumFault>
    ensures { IfOk result (IsSum reports.now) }
{
    let Some(first) = reports.first() else {
        return Err(SumFault::NoReport);
    };
    check_numbers(reports)?;
    let parts = parts_of(first.part);
    check_each(first, parts as usize, reports)?;
    let found = merge_parts(alloc, reports, parts)?;
    let mut whole = whole_of(alloc, first)?;
    check_each(&whole, reports.len(), reports)?;
    whole.alerts = alerts_of(reports)?;
    whole.found = found;
    Ok(whole)
}
