//! Where the first line feed of a text is. Many bytes are looked at together, from the first on; the last ones of the
//! text may be looked at twice.
ghost use Rattle.std.specs.Prelude.{◌≡◌, ◌≢◌, ◌<◌, ◌≤◌, ◌+◌, ◌-◌, ℕ, Some, false, length, slice_index, true};
ghost use Rattle.execlog.specs.Rows.{IsFeedAt};

use std::simd::prelude::*;

/// How many of that many bytes of a text, from a place on, are before a line feed; at least that many if there is none.
#[inline(always)]
fn part_len<const N: usize>(text: &[u8], at: usize) -> usize
    requires within { at + N ≤ length text.now }
    requires few { N ≤ 64 }
    ensures before { (k : ℕ) → k < N → k < result → slice_index text.now (at + k) ≢ 10 }
    ensures feed { result < N → slice_index text.now (at + result) ≡ 10 }
{
    let feeds = Simd::<u8, N>::from_slice(&text[at..])
        .simd_eq(Simd::splat(b'\n'))
        .to_bitmask();
    if feeds == 0 {
        N
    } else {
        feeds.trailing_zeros() as usize
    }
}

/// Whether one of that many bytes of a text, from a place on, is a line feed.
#[inline(always)]
fn has_feed<const N: usize>(text: &[u8], at: usize) -> bool
    requires within { at + N ≤ length text.now }
    requires few { N ≤ 64 }
    ensures { result ≡ false → (k : ℕ) → k < N → slice_index text.now (at + k) ≢ 10 }
{
    let feeds = Simd::<u8, N>::from_slice(&text[at..])
        .simd_eq(Simd::splat(b'\n'))
        .to_bitmask();
    feeds != 0
}

/// Whether a text is a line and its line feed, by its last byte and by the others, as the first ones and the last ones,
/// of that many; false if they are not as many.
#[inline(always)]
fn is_line_by<const N: usize>(text: &[u8]) -> bool
    requires few { N ≤ 32 }
    ensures { result ≡ true → IsFeedAt text.now (Some (length text.now - 1)) }
{
    let len = text.len();
    if len <= N || len > N + N + 1 {
        return false;
    }
    let end = len - 1;
    if text[end] != b'\n' {
        return false;
    }
    if has_feed::<N>(text, 0) {
        return false;
    }
    if has_feed::<N>(text, end - N) {
        return false;
    }
    true
}

/// Whether a text is a line and its line feed. It may answer no of one that is.
#[inline(always)]
pub(crate) fn is_line(text: &[u8]) -> bool
    ensures { result ≡ true → IsFeedAt text.now (Some (length text.now - 1)) }
{
    if text.len() > 33 {
        is_line_by::<32>(text)
    } else if text.len() > 17 {
        is_line_by::<16>(text)
    } else {
        is_line_by::<8>(text)
    }
}

/// Where the first line feed of a text is, which has at least that many bytes.
#[inline(always)]
fn feed_by<const N: usize>(text: &[u8]) -> Option<usize>
    requires some { 0 < N }
    requires few { N ≤ 64 }
    requires long { N ≤ length text.now }
    ensures { IsFeedAt text.now result }
{
    let last = text.len() - N;
    let mut at = 0;
    while at < last {
        let len = part_len::<N>(text, at);
        if len < N {
            return Some(at + len);
        }
        at += N;
    }
    let len = part_len::<N>(text, last);
    if len < N { Some(last + len) } else { None }
}

/// Where the first line feed of a text is, by one byte after another.
#[inline(always)]
fn feed_by_one(text: &[u8]) -> Option<usize>
    ensures { IsFeedAt text.now result }
{
    for i in 0..text.len() {
        if text[i] == b'\n' {
            return Some(i);
        }
    }
    None
}

/// Where the first line feed of a text is.
#[inline(always)]
pub(crate) fn feed_of(text: &[u8]) -> Option<usize>
    ensures { IsFeedAt text.now result }
{
    if text.len() >= 16 {
        feed_by::<16>(text)
    } else if text.len() >= 8 {
        feed_by::<8>(text)
    } else {
        feed_by_one(text)
    }
}
