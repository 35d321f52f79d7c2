//! The text of a report.
ghost use Rattle.std.specs.Prelude.{◌≡◌, ◌+◌, ◌==◌, ◌++◌, Bool, true, IfOk, OnOk, map, codes, string_bytes};
ghost use Rattle.hex.specs.Hex.{encode_lower};
ghost use Rattle.sha2.specs.Sha256.{sha256};
ghost use Rattle.wayreport.specs.Reports.{body_of, closing_line, digest_lines, entries_text, entry_line, entry_text, first_lines, found_view, head_text, indented, outcomes_text, part_text, program_line, report_view, seen_lines, text_of, title_line, ways_text};

use crate::report::{Found, Part, Report};
use sha2::{Digest, Sha256};
use std::alloc::{AllocError, Global};

/// The version of the program, which is in each report.
pub const VERSION: &str = "1.0";

/// The SHA-256 of some bytes, in hexadecimal digits.
///
/// # Errors
///
/// Memory was refused.
///
/// Source: project rule.
pub fn digest(alloc: Global, bytes: &[u8]) -> Result<String, AllocError>
    ensures { IfOk result (λ text. string_bytes text ≡ encode_lower (sha256 bytes.now)) }
{
    hex::encode(alloc, Sha256::digest(bytes))
}

/// Adds a text with two spaces before each of its lines.
fn push_indented(out: &mut Vec<u8>, text: &[u8]) -> Result<(), AllocError>
    ensures { OnOk result (out.new.items ≡ out.old.items ++ indented true text.now) }
{
    let mut begins = true;
    for byte in text {
        if begins {
            out.extend_from_slice(b"  ")?;
        }
        out.push(*byte)?;
        begins = *byte == 10;
    }
    Ok(())
}

/// A number of ways, as `1 way` and `71 ways`.
///
/// # Errors
///
/// Memory was refused.
///
/// Source: project rule.
pub fn ways_text(alloc: Global, ways: u64) -> Result<String, AllocError>
    ensures { IfOk result (λ text. string_bytes text ≡ ways_text ways) }
{
    if ways == 1 {
        format!(in alloc; "{ways} way")
    } else {
        format!(in alloc; "{ways} ways")
    }
}

/// A number of outcomes.
fn outcomes_text(alloc: Global, outcomes: usize) -> Result<String, AllocError>
    ensures { IfOk result (λ text. string_bytes text ≡ outcomes_text outcomes) }
{
    if outcomes == 1 {
        format!(in alloc; "{outcomes} outcome")
    } else {
        format!(in alloc; "{outcomes} outcomes")
    }
}

/// The line over what is seen.
fn entry_line(alloc: Global, number: usize, found: &Found) -> Result<String, AllocError>
    ensures { IfOk result (λ text. string_bytes text ≡ entry_line number (found_view found.now)) }
{
    let counted = ways_text(alloc, found.count)?;
    let ways = counted.as_str();
    let first = found.first.as_str();
    format!(in alloc; "\noutcome {number}: {ways}, first {first}\n")
}

/// Adds an outcome.
fn push_entry(
    alloc: Global,
    out: &mut Vec<u8>,
    number: usize,
    found: &Found,
) -> Result<(), AllocError>
    ensures { OnOk result (out.new.items ≡ out.old.items ++ entry_text number (found_view found.now)) }
{
    let line = entry_line(alloc, number, found)?;
    out.extend_from_slice(line.as_bytes())?;
    push_indented(out, found.seen.as_slice())
}

/// Adds the outcomes, numbered from 1.
fn push_entries(alloc: Global, out: &mut Vec<u8>, found: &[Found]) -> Result<(), AllocError>
    ensures { OnOk result (out.new.items ≡ out.old.items ++ entries_text 1 (map found_view found.now)) }
{
    for i in 0..found.len() {
        push_entry(alloc, out, i + 1, &found[i])?;
    }
    Ok(())
}

/// The line of a part.
fn part_text(alloc: Global, part: Option<Part>) -> Result<String, AllocError>
    ensures { IfOk result (λ text. string_bytes text ≡ part_text part) }
{
    match part {
        None => Ok(String::new(alloc)),
        Some(part) => {
            let number = part.number;
            let of = part.of;
            let counted = ways_text(alloc, part.ways)?;
            let ways = counted.as_str();
            format!(in alloc; "part {number} of {of}: {ways}\n")
        }
    }
}

/// What was searched, and how many outcomes there are.
fn title_line(alloc: Global, report: &Report, outcomes: usize) -> Result<String, AllocError>
    ensures { IfOk result (λ text. string_bytes text ≡ title_line outcomes (report_view report.now)) }
{
    let title = report.title.as_str();
    let counted = ways_text(alloc, report.all)?;
    let ways = counted.as_str();
    let different = outcomes_text(alloc, outcomes)?;
    let number = different.as_str();
    format!(in alloc; "{title}: {ways}, {number}\n")
}

/// The line of the program that made the report.
fn program_line(alloc: Global) -> Result<String, AllocError>
    ensures { IfOk result (λ text. string_bytes text ≡ program_line) }
{
    format!(in alloc; "program: execexplore {VERSION}\n")
}

/// The digests of both texts.
fn digest_lines(alloc: Global, report: &Report) -> Result<String, AllocError>
    ensures { IfOk result (λ text. string_bytes text ≡ digest_lines (report_view report.now)) }
{
    let machine = report.machine.as_str();
    let events = report.events.as_str();
    format!(in alloc; "machine file: SHA-256 {machine}\nevent text: SHA-256 {events}\n")
}

/// What is seen of a way, and how many end in an alert.
fn seen_lines(alloc: Global, report: &Report) -> Result<String, AllocError>
    ensures { IfOk result (λ text. string_bytes text ≡ seen_lines (report_view report.now)) }
{
    let see = report.see.as_str();
    let alerts = report.alerts;
    format!(in alloc; "seen of a way: {see}\nways that end in an alert: {alerts}\n")
}

/// The lines before the digests.
fn first_lines(alloc: Global, report: &Report, outcomes: usize) -> Result<String, AllocError>
    ensures { IfOk result (λ text. string_bytes text ≡ first_lines outcomes (report_view report.now)) }
{
    let mut text = title_line(alloc, report, outcomes)?;
    let part = part_text(alloc, report.part)?;
    text.push_str(part.as_str())?;
    let program = program_line(alloc)?;
    text.push_str(program.as_str())?;
    Ok(text)
}

/// The lines before that many outcomes.
fn head_text(alloc: Global, report: &Report, outcomes: usize) -> Result<String, AllocError>
    ensures { IfOk result (λ text. string_bytes text ≡ head_text outcomes (report_view report.now)) }
{
    let mut text = first_lines(alloc, report, outcomes)?;
    let digests = digest_lines(alloc, report)?;
    text.push_str(digests.as_str())?;
    let seen = seen_lines(alloc, report)?;
    text.push_str(seen.as_str())?;
    Ok(text)
}

/// All lines of a report but the last.
fn report_body(alloc: Global, report: &Report) -> Result<Vec<u8>, AllocError>
    ensures { IfOk result (λ text. text.items ≡ body_of (report_view report.now)) }
{
    let head = head_text(alloc, report, report.found.len())?;
    let mut out = Vec::new(alloc);
    out.extend_from_slice(head.as_bytes())?;
    push_entries(alloc, &mut out, report.found.as_slice())?;
    out.extend_from_slice(b"\n")?;
    Ok(out)
}

/// The last line of a report, of all that is above it.
///
/// # Errors
///
/// Memory was refused.
///
/// Source: project rule.
pub fn closing_line(alloc: Global, body: &[u8]) -> Result<String, AllocError>
    ensures { IfOk result (λ text. string_bytes text ≡ closing_line body.now) }
{
    let digits = digest(alloc, body)?;
    let sum = digits.as_str();
    format!(in alloc; "lines above: SHA-256 {sum}\n")
}

/// The text of a report.
///
/// # Errors
///
/// Memory was refused.
///
/// Source: project rule.
pub fn report_text(alloc: Global, report: &Report) -> Result<Vec<u8>, AllocError>
    ensures { IfOk result (λ text. text.items ≡ text_of (report_view report.now)) }
{
    let mut out = report_body(alloc, report)?;
    let closing = closing_line(alloc, out.as_slice())?;
    out.extend_from_slice(closing.as_bytes())?;
    Ok(out)
}
