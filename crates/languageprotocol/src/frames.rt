//! Frames, in which messages come: a head of lines that end with a carriage return and a line feed, of which one says
//! how many bytes the message has, an empty line, and the message.

ghost use Rattle.std.specs.Prelude.{◌≡◌, ◌≤◌, ◌++◌, IfOk, IfSome, length};
ghost use Rattle.languageprotocol.specs.Frames.{head_of};

use crate::made::Made;
use std::alloc::Global;

/// The most bytes of a head that are read.
const HEAD_LIMIT: usize = 4_096;

/// The most bytes of a message: a text of 4 MiB each of whose bytes is an escape of six has fewer.
const MESSAGE_LIMIT: usize = 33_554_432;

/// What ends a head.
const HEAD_END: &[u8] = b"\r\n\r\n";

/// What begins the line of a head that says how long the message is, in small letters.
const LENGTH: &[u8] = b"content-length:";

/// Where a message is in some bytes.
#[derive(Clone, Copy, Debug, PartialEq, Eq)]
pub struct Found {
    /// The place of its first byte.
    pub start: usize,
    /// The place after its last one.
    pub end: usize,
}

/// That bytes begin with no frame, or with one whose message is longer than 32 MiB.
#[derive(Clone, Copy, Debug, PartialEq, Eq)]
pub struct NotFramed;

/// Whether a line of a head says how long the message is.
fn says_length(line: &[u8]) -> bool {
    match line.get(..LENGTH.len()) {
        None => false,
        Some(name) => name.eq_ignore_ascii_case(LENGTH),
    }
}

/// The number that decimal digits are, if it is a length of a message.
fn length_of(digits: &[u8]) -> Option<usize> {
    let mut length = 0usize;
    for digit in digits {
        if !digit.is_ascii_digit() {
            return None;
        }
        length = length
            .saturating_mul(10)
            .saturating_add(usize::from(*digit - b'0'));
    }
    if digits.is_empty() || length > MESSAGE_LIMIT {
        None
    } else {
        Some(length)
    }
}

/// How many bytes the message has, as a head says.
fn length_in(head: &[u8]) -> Option<usize> {
    let line = head.split(is_line_feed).find(|line| says_length(line))?;
    length_of(line.get(LENGTH.len()..)?.trim_ascii())
}

/// Whether a byte is a line feed.
fn is_line_feed(byte: &u8) -> bool {
    *byte == b'\n'
}

/// The place of the end of the head in some bytes.
fn head_end(bytes: &[u8]) -> Option<usize> {
    let front = bytes.get(..HEAD_LIMIT).unwrap_or(bytes);
    front
        .windows(HEAD_END.len())
        .position(|part| part == HEAD_END)
}

/// Where the message of the frame is with which some bytes begin; none if not all of it is there.
///
/// # Errors
///
/// `NotFramed` if there is no head in the first 4,096 bytes, or it has no length of at most 33,554,432.
///
/// Source: the Language Server Protocol 3.17, Base Protocol.
pub fn front_of(bytes: &[u8]) -> Result<Option<Found>, NotFramed>
    ensures inside { IfOk result (λ front. IfSome front (λ found. (found.start ≤ found.end) × (found.end ≤ length bytes.now))) }
{
    let Some(at) = head_end(bytes) else {
        return if bytes.len() < HEAD_LIMIT {
            Ok(None)
        } else {
            Err(NotFramed)
        };
    };
    let start = at.saturating_add(HEAD_END.len());
    let head = bytes.get(..at).unwrap_or(&[]);
    match length_in(head) {
        None => Err(NotFramed),
        Some(length) => {
            let end = start.saturating_add(length);
            Ok(if end <= bytes.len() {
                Some(Found { start, end })
            } else {
                None
            })
        }
    }
}

/// A message in its frame.
///
/// # Errors
///
/// If memory is refused.
///
/// Source: the Language Server Protocol 3.17, Base Protocol.
pub fn frame_of(alloc: Global, message: &[u8]) -> Made<Vec<u8>>
    ensures { IfOk result (λ frame. frame.items ≡ head_of (length message.now) ++ message.now) }
{
    let length = message.len();
    let head = format!(in alloc; "Content-Length: {length}\r\n\r\n")?;
    let mut frame = head.into_bytes();
    frame.extend_from_slice(message)?;
    Ok(frame)
}
