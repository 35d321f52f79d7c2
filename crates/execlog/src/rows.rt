//! The rows of a log: columns before and after a line of the trace. The columns before it are put into room of a fixed
//! size, the last one first.
ghost use Rattle.std.specs.Prelude.{◌≡◌, ◌∷◌, ◌≤◌, ◌<◌, ◌++◌, ◌+◌, ◌-◌, ◌/◌, [], codes, decimal, drop, length, replicate, take, OnOk};
ghost use Rattle.execlog.specs.Rows.{IsBlank, IsSheet, columns, digit, front, line_column, millis, padded, row_with, source_column};

use crate::frame::Frame;
use crate::head::Head;
use crate::moment::Moment;
use crate::page::Page;
use crate::sheet::{Sheet, WIDTH};
use itoa::write_digits;
use std::alloc::AllocError;

/// How many bytes there is room for, which is enough for all numbers and times.
pub(crate) const ROOM: usize = 64;

/// Blank room.
pub(crate) const BLANK: [u8; ROOM] = [b' '; ROOM];

/// Spaces, more than there are between a line of the trace and the text of its command.
const SPACES: [u8; WIDTH] = [b' '; WIDTH];

/// The most bytes of a line of no command whose row is short.
const MOST_BARE: usize = 87;

/// Puts a byte before a place in room that is blank up to there, and answers where it is.
fn put_byte(room: &mut [u8], end: usize, byte: u8) -> usize
    requires within { (0 < end) × (end ≤ length room.old) }
    requires blank { IsBlank end room.old }
    ensures at { result + 1 ≡ end }
    ensures put { drop result room.new ≡ byte ∷ drop end room.old }
    ensures blank { IsBlank result room.new }
    ensures room { length room.new ≡ length room.old }
{
    let at = end - 1;
    room[at] = byte;
    at
}

/// Puts a number before a place in room that is blank up to there, and answers where it begins.
fn put_digits(room: &mut [u8], end: usize, n: u64) -> usize
    requires within { (20 ≤ end) × (end ≤ length room.old) }
    requires blank { IsBlank end room.old }
    ensures at { result + length (decimal n) ≡ end }
    ensures few { end ≤ result + 20 }
    ensures put { drop result room.new ≡ decimal n ++ drop end room.old }
    ensures blank { IsBlank result room.new }
    ensures room { length room.new ≡ length room.old }
{
    write_digits(n, room, end)
}

/// Puts a number at the right of a column of a width that ends at a place in room that is blank up to there, and
/// answers where the column begins.
pub(crate) fn put_column(room: &mut [u8], end: usize, width: usize, n: u64) -> usize
    requires within { (25 ≤ end) × (end ≤ length room.old) }
    requires narrow { width ≤ 5 }
    requires blank { IsBlank end room.old }
    ensures few { end ≤ result + 25 }
    ensures put { drop result room.new ≡ padded width (decimal n) ++ drop end room.old }
    ensures blank { IsBlank result room.new }
    ensures room { length room.new ≡ length room.old }
{
    let start = put_digits(room, end, n);
    start - width.saturating_sub(end - start)
}

/// The last digit of a number.
#[inline(always)]
pub(crate) fn digit(n: u64) -> u8
    ensures { result ≡ digit n }
{
    b'0' + (n % 10) as u8
}

/// Puts a point and three places of milliseconds before a place in room that is blank up to there, and answers where
/// they begin.
fn put_places(room: &mut [u8], end: usize, micros: u64) -> usize
    requires within { (4 ≤ end) × (end ≤ length room.old) }
    requires blank { IsBlank end room.old }
    ensures few { end ≡ result + 4 }
    ensures put { drop result room.new ≡ 46 ∷ digit (micros / 100) ∷ digit (micros / 10) ∷ digit micros ∷ drop end room.old }
    ensures blank { IsBlank result room.new }
    ensures room { length room.new ≡ length room.old }
{
    let last = put_byte(room, end, digit(micros));
    let middle = put_byte(room, last, digit(micros / 10));
    let first = put_byte(room, middle, digit(micros / 100));
    put_byte(room, first, b'.')
}

/// Puts microseconds as milliseconds at the right of a column.
fn put_time(room: &mut [u8], end: usize, micros: u64) -> usize
    requires within { (29 ≤ end) × (end ≤ length room.old) }
    requires blank { IsBlank end room.old }
    ensures few { end ≤ result + 29 }
    ensures put { drop result room.new ≡ padded 4 (decimal (micros / 1000))
        ++ 46 ∷ digit (micros / 100) ∷ digit (micros / 10) ∷ digit micros ∷ drop end room.old }
    ensures blank { IsBlank result room.new }
    ensures room { length room.new ≡ length room.old }
{
    // With no tick yet no digit is calculated.
    if micros == 0 {
        let point = put_places(room, end, 0);
        return put_column(room, point, 4, 0);
    }
    let point = put_places(room, end, micros);
    put_column(room, point, 4, micros / 1000)
}

/// Puts a space, and microseconds as milliseconds.
pub(crate) fn put_millis(room: &mut [u8], end: usize, micros: u64) -> usize
    requires within { (30 ≤ end) × (end ≤ length room.old) }
    requires blank { IsBlank end room.old }
    ensures few { end ≤ result + 30 }
    ensures put { drop result room.new ≡ millis micros ++ drop end room.old }
    ensures blank { IsBlank result room.new }
    ensures room { length room.new ≡ length room.old }
{
    let time = put_time(room, end, micros);
    put_byte(room, time, b' ')
}

/// Puts the number of a line after a colon at the right of a column.
fn put_number(room: &mut [u8], end: usize, line: u64) -> usize
    requires within { (26 ≤ end) × (end ≤ length room.old) }
    requires blank { IsBlank end room.old }
    ensures few { end ≤ result + 25 }
    ensures put { drop result room.new ≡ replicate (4 - length (decimal line)) 32 ++ 58 ∷ decimal line ++ drop end room.old }
    ensures blank { IsBlank result room.new }
    ensures room { length room.new ≡ length room.old }
{
    let start = put_digits(room, end, line);
    let colon = put_byte(room, start, b':');
    colon - 4usize.saturating_sub(end - start)
}

/// Puts the column of a line that is known.
fn put_known_line(room: &mut [u8], end: usize, line: u64) -> usize
    requires within { (26 ≤ end) × (end ≤ length room.old) }
    requires blank { IsBlank end room.old }
    ensures few { end ≤ result + 26 }
    ensures put { drop result room.new ≡ 32 ∷ replicate (4 - length (decimal line)) 32 ++ 58 ∷ decimal line ++ drop end room.old }
    ensures blank { IsBlank result room.new }
    ensures room { length room.new ≡ length room.old }
{
    let number = put_number(room, end, line);
    put_byte(room, number, b' ')
}

/// Puts the column of a line.
fn put_line(room: &mut [u8], end: usize, line: Option<u32>) -> usize
    requires within { (26 ≤ end) × (end ≤ length room.old) }
    requires blank { IsBlank end room.old }
    ensures few { end ≤ result + 26 }
    ensures put { drop result room.new ≡ line_column line ++ drop end room.old }
    ensures blank { IsBlank result room.new }
    ensures room { length room.new ≡ length room.old }
{
    match line {
        None => end - 6,
        Some(line) => put_known_line(room, end, u64::from(line)),
    }
}

/// Adds the column of a line, and the two spaces after it.
pub(crate) fn push_line_column(page: &mut Vec<u8>, line: Option<u32>) -> Result<(), AllocError>
    ensures { OnOk result (page.new.items ≡ page.old.items ++ (line_column line ++ codes "  ")) }
{
    let mut room = BLANK;
    let start = put_line(&mut room, ROOM - 2, line);
    page.extend_from_slice(&room[start..])
}

/// Adds all that is before a line of the trace.
fn push_front(page: &mut Vec<u8>, line: Option<u32>, moment: &Moment) -> Result<(), AllocError>
    ensures { OnOk result (page.new.items ≡ page.old.items ++ front line moment.now) }
{
    let head = Head::of(moment.number, moment.clock);
    page.extend_from_slice(head.columns())?;
    push_line_column(page, line)
}

/// Adds the spaces after that many bytes of a line.
fn push_gap(page: &mut Vec<u8>, taken: usize) -> Result<(), AllocError>
    ensures { OnOk result (page.new.items ≡ page.old.items ++ (replicate (43 - taken) 32 ++ codes "  ")) }
{
    page.extend_from_slice(&SPACES[..43usize.saturating_sub(taken) + 2])
}

/// Adds the column of the text of a command, after that many bytes of a line; nothing if there is no text.
pub(crate) fn push_source(page: &mut Vec<u8>, taken: usize, source: &[u8]) -> Result<(), AllocError>
    ensures { OnOk result (page.new.items ≡ page.old.items ++ source_column taken source.now) }
{
    if source.is_empty() {
        return Ok(());
    }
    push_gap(page, taken)?;
    page.extend_from_slice(source)
}

/// Adds a row: the number and the time, the line of the file, the text of the row, and that of the command.
///
/// Source: project rule.
pub fn push_row(
    page: &mut Vec<u8>,
    moment: &Moment,
    line: Option<u32>,
    text: &[u8],
    source: &[u8],
) -> Result<(), AllocError>
    ensures { OnOk result (page.new.items ≡ page.old.items ++ row_with moment.now line text.now source.now) }
{
    push_front(page, line, moment)?;
    page.extend_from_slice(text)?;
    push_source(page, text.len(), source)?;
    page.push(b'\n')?;
    Ok(())
}

/// Adds a row: the number and the time, and a line of the trace that takes the place of no more than the spaces after
/// it.
#[inline(always)]
fn push_on_sheet(
    page: &mut Page,
    head: &Head,
    frame: &Frame,
    sheet: &Sheet,
    text: &[u8],
) -> Result<(), AllocError>
    requires narrow { 64 - head.now.start ≤ 32 }
    requires short { length text.now ≤ sheet.now.most }
    requires sheet { (sheet.now.most ≡ frame.now.gap) × IsSheet frame.now.before.items frame.now.after.items sheet.now.cells sheet.now.at sheet.now.len }
    ensures { OnOk result (page.new ≡ page.old ++ (columns head.now.number head.now.clock ++ (frame.now.before.items
        ++ (text.now ++ drop (frame.now.gap - (frame.now.gap - length text.now)) frame.now.after.items)))) }
{
    page.push_cells(head, &sheet.cells, sheet.at, sheet.len, text)
}

/// Adds a row: the number and the time, and a line of the trace within what is around it.
#[cold]
#[inline(never)]
fn push_around(page: &mut Page, head: &Head, frame: &Frame, text: &[u8]) -> Result<(), AllocError>
    requires { frame.now.gap ≤ length frame.now.after.items }
    ensures { OnOk result (page.new ≡ page.old ++ (columns head.now.number head.now.clock ++ (frame.now.before.items
        ++ (text.now ++ drop (frame.now.gap - (frame.now.gap - length text.now)) frame.now.after.items)))) }
{
    page.extend_from_slice(head.columns())?;
    page.extend_from_slice(&frame.before)?;
    page.extend_from_slice(text)?;
    let taken = frame.gap - frame.gap.saturating_sub(text.len());
    page.extend_from_slice(&frame.after[taken..])
}

/// Adds a row: the number and the time, and a line of the trace that is of a command.
#[inline(always)]
pub(crate) fn push_framed(
    page: &mut Page,
    head: &Head,
    frame: &Frame,
    text: &[u8],
) -> Result<(), AllocError>
    requires { frame.now.gap ≤ length frame.now.after.items }
    ensures { OnOk result (page.new ≡ page.old ++ (columns head.now.number head.now.clock ++ (frame.now.before.items
        ++ (text.now ++ drop (frame.now.gap - (frame.now.gap - length text.now)) frame.now.after.items)))) }
{
    match &frame.sheet {
        Some(sheet) => {
            if text.len() <= sheet.most && head.is_narrow() {
                push_on_sheet(page, head, frame, sheet, text)
            } else {
                push_around(page, head, frame, text)
            }
        }
        None => push_around(page, head, frame, text),
    }
}

/// Adds a row: the number and the time, and a line of the trace that is of no command and long.
#[cold]
#[inline(never)]
fn push_long(page: &mut Page, head: &Head, text: &[u8]) -> Result<(), AllocError>
    ensures { OnOk result (page.new ≡ page.old ++ (columns head.now.number head.now.clock ++ (replicate 8 32 ++ (text.now ++ 10 ∷ [])))) }
{
    page.extend_from_slice(head.columns())?;
    page.extend_from_slice(&SPACES[..8])?;
    page.extend_from_slice(text)?;
    page.extend_from_slice(b"\n")
}

/// Adds a row: the number and the time, and a line of the trace that is of no command.
#[inline(always)]
pub(crate) fn push_bare(page: &mut Page, head: &Head, text: &[u8]) -> Result<(), AllocError>
    ensures { OnOk result (page.new ≡ page.old ++ (columns head.now.number head.now.clock ++ (replicate 8 32 ++ (text.now ++ 10 ∷ [])))) }
{
    if text.len() <= MOST_BARE && head.is_narrow() {
        page.push_bare(head, text)
    } else {
        push_long(page, head, text)
    }
}
