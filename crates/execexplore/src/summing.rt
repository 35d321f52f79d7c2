//! The sum of reports, from their texts to the text of the whole.
ghost use Rattle.std.specs.Prelude.{◌≡◌, ◌≤◌, ◌||◌, IfErr, IfOk, IfSome, OnOk, length, nat_lt, take, vec_len};
ghost use Rattle.wayreport.specs.{Reports.report_view, Reports.text_of, Right.IsRight};
ghost use Rattle.execexplore.specs.Summing.{AreAt, IsAt, IsOfSum, SumsTexts};

use crate::failure::Failure;
use crate::whole::Answer;
use execrun::{TextFault, Texts};
use std::alloc::{AllocError, Global};
use std::io;
use std::io::Read;
use wayreport::{
    REPORT_LIMIT, Report, ReportFault, SumFault, read_report, report_text, sum_reports,
};

/// The bytes of an open report. Of a longer text than a report may be, one byte more is read.
fn read_open<R: Read + Drop>(alloc: Global, text: R) -> io::Result<Vec<u8>>
    ensures { IfOk result (λ bytes. IfSome (R.remaining text) (λ all. bytes.items ≡ take 268435457 all)) }
{
    let mut bytes = Vec::new(alloc);
    text.take(REPORT_LIMIT as u64 + 1).read_to_end(&mut bytes)?;
    Ok(bytes)
}

/// The bytes of the report at a path, as `read_open` reads them.
#[tactic(auto, using(crate::proofs::SumLemmas::read_front))]
fn read_whole<T: Texts>(texts: &T, alloc: Global, path: &str) -> io::Result<Vec<u8>>
    ensures { IfOk result (λ bytes. IfSome (T.text_at texts.now path.now) (λ all. bytes.items ≡ take 268435457 all)) }
{
    let text = texts.open_text(path)?;
    read_open(alloc, text)
}

/// The report of the bytes that were read at a path.
fn report_of<'a>(alloc: Global, bytes: &[u8], path: &'a str) -> Result<Report, Failure<'a>>
    ensures text { IfOk result (λ report. text_of (report_view report) ≡ bytes.now) }
    ensures right { IfOk result (λ report. IsRight (report_view report)) }
    ensures within { OnOk result (length bytes.now ≤ 268435456) }
    ensures failure { IfErr result IsOfSum }
{
    if bytes.len() > REPORT_LIMIT {
        return Err(Failure::NotAReport(ReportFault::TooLong, path));
    }
    match read_report(alloc, bytes) {
        Ok(report) => Ok(report),
        Err(ReportFault::OutOfMemory) => Err(Failure::NoMemory),
        Err(fault) => Err(Failure::NotAReport(fault, path)),
    }
}

/// The report at a path.
#[tactic(auto, using(crate::proofs::SumLemmas::whole_text, crate::proofs::SumLemmas::unread_text))]
fn report_at<'a, T: Texts>(texts: &T, alloc: Global, path: &'a str) -> Result<Report, Failure<'a>>
    ensures report { IfOk result (IsAt (T.text_at texts.now) path.now) }
    ensures failure { IfErr result IsOfSum }
{
    match read_whole(texts, alloc, path) {
        Ok(bytes) => report_of(alloc, &bytes, path),
        Err(error) => Err(Failure::of_text(path, TextFault::from(error))),
    }
}

/// The reports at some paths.
#[tactic(auto, using(crate::proofs::SumLemmas::next_at))]
fn reports_at<'a, T: Texts>(
    texts: &T,
    alloc: Global,
    paths: &[&'a str],
) -> Result<Vec<Report>, Failure<'a>>
    ensures reports { IfOk result (λ reports. AreAt (T.text_at texts.now) paths.now reports.items) }
    ensures failure { IfErr result IsOfSum }
{
    let mut reports = Vec::new(alloc);
    for path in paths {
        let report = report_at(texts, alloc, path)?;
        if reports.push(report).is_err() {
            return Err(Failure::NoMemory);
        }
    }
    Ok(reports)
}

/// The place of the report that a fault names.
fn place_in(fault: SumFault) -> Option<usize> {
    match fault {
        SumFault::IsWhole(i) | SumFault::IsOther(i) | SumFault::IsRepeated(i) => Some(i),
        SumFault::OutOfMemory
        | SumFault::NoReport
        | SumFault::IsMissing(_)
        | SumFault::TooManyWays => None,
    }
}

/// What a fault of a sum is to the command.
fn no_sum<'a>(paths: &[&'a str], fault: SumFault) -> Failure<'a>
    ensures { IsOfSum result }
{
    if fault == SumFault::OutOfMemory {
        return Failure::NoMemory;
    }
    let path = match place_in(fault) {
        None => None,
        Some(place) => paths.get(place).copied(),
    };
    Failure::NoSum(fault, path)
}

/// Whether a report has more than one outcome, or an alert.
fn is_mixed(report: &Report) -> bool
    ensures { result ≡ (nat_lt 1 (vec_len report.now.found) || nat_lt 0 report.now.alerts) }
{
    report.found.len() > 1 || report.alerts > 0
}

/// What is printed of a report.
fn answer_of(alloc: Global, report: &Report) -> Result<Answer, AllocError>
    ensures text { IfOk result (λ answer. answer.text.items ≡ text_of (report_view report.now)) }
    ensures mixed { IfOk result (λ answer. answer.is_mixed ≡ (nat_lt 1 (vec_len report.now.found) || nat_lt 0 report.now.alerts)) }
{
    Ok(Answer {
        text: report_text(alloc, report)?,
        is_mixed: is_mixed(report),
    })
}

/// Reads the reports at some paths, and answers the report of the whole.
///
/// # Errors
///
/// `NoMemory` if memory is refused, `CannotRead` and `NotAReport` of the first path of which this is so, and `NoSum` if
/// the reports are not those of all parts of a search.
///
/// Source: project rule.
#[tactic(auto, using(crate::proofs::SumLemmas::sum_by_memory))]
pub fn summed<'a, T: Texts>(
    texts: &T,
    alloc: Global,
    paths: &[&'a str],
) -> Result<Answer, Failure<'a>>
    ensures sum { IfOk result (SumsTexts (T.text_at texts.now) paths.now) }
    ensures failure { IfErr result IsOfSum }
{
    let reports = reports_at(texts, alloc, paths)?;
    let whole = match sum_reports(alloc, &reports) {
        Ok(whole) => whole,
        Err(fault) => return Err(no_sum(paths, fault)),
    };
    let answer = answer_of(alloc, &whole)?;
    Ok(answer)
}
