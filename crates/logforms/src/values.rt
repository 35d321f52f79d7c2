//! Numbers as texts of a log and of a page of states show them.

use crate::page::Page;

/// A digit in hexadecimal: that of the lowest four bits of a number.
fn digit(value: u32) -> &'static str {
    match value % 16 {
        0 => "0",
        1 => "1",
        2 => "2",
        3 => "3",
        4 => "4",
        5 => "5",
        6 => "6",
        7 => "7",
        8 => "8",
        9 => "9",
        10 => "A",
        11 => "B",
        12 => "C",
        13 => "D",
        14 => "E",
        _ => "F",
    }
}

/// Adds a word as a trace shows it: `$` and eight digits.
///
/// Source: project rule.
pub fn push_word(page: &mut Page, value: u32) {
    page.push_str("$");
    let mut rest = value;
    for _digit in 0..8 {
        page.push_str(digit(rest / 0x1000_0000));
        rest = rest.wrapping_mul(16);
    }
}

/// Adds microseconds as milliseconds with three places.
///
/// Source: project rule.
pub fn push_millis(page: &mut Page, micros: u64) {
    push_number(page, micros / 1000);
    page.push_str(".");
    push_number(page, micros / 100 % 10);
    push_number(page, micros / 10 % 10);
    push_number(page, micros % 10);
}

/// Adds a number in decimal.
///
/// Source: project rule.
pub fn push_number(page: &mut Page, number: u64) {
    let mut digits = itoa::Buffer::new();
    page.push_str(digits.format(number));
}

/// Adds a number that may be negative in decimal.
///
/// Source: project rule.
pub fn push_signed(page: &mut Page, number: i64) {
    let mut digits = itoa::Buffer::new();
    page.push_str(digits.format(number));
}

/// The value of eight digits after `-> $` at the end of a line: what the call of the line has answered.
///
/// Source: project rule.
pub fn answer_in(line: &[u8]) -> Option<u32> {
    let start = line.len().checked_sub(13)?;
    let digits = line.get(start..)?.strip_prefix(b" -> $")?;
    let mut value = 0u32;
    for b in digits {
        value = value.wrapping_mul(16).wrapping_add(digit_value(*b)?);
    }
    Some(value)
}

/// The value of a digit in hexadecimal.
fn digit_value(b: u8) -> Option<u32> {
    if b.is_ascii_digit() {
        Some(u32::from(b).saturating_sub(48))
    } else if b >= b'A' && b <= b'F' {
        Some(u32::from(b).saturating_sub(55))
    } else {
        None
    }
}
