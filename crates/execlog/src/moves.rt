//! Texts that are written over bytes, most of them in two moves of one width.
ghost use Rattle.std.specs.Prelude.{◌≡◌, ◌≤◌, ◌++◌, ◌+◌, drop, length, take};

use crate::sheet::WIDTH as CELLS;
use std::simd::prelude::*;

/// Writes a text over bytes from a place on.
#[inline(always)]
pub(crate) fn write_over(room: &mut [u8], at: usize, text: &[u8])
    requires { at + length text.now ≤ length room.old }
    ensures before { take (at + length text.now) room.new ≡ take at room.old ++ text.now }
    ensures after { drop (at + length text.now) room.new ≡ drop (at + length text.now) room.old }
    ensures room { length room.new ≡ length room.old }
{
    room[at..at + text.len()].copy_from_slice(text);
}

/// Writes a text, as long as that width, over bytes from a place on, by one load and one store.
#[inline(always)]
pub(crate) fn write_block<const WIDTH: usize>(room: &mut [u8], at: usize, text: &[u8])
    requires within { at + length text.now ≤ length room.old }
    requires whole { length text.now ≡ WIDTH }
    ensures before { take (at + length text.now) room.new ≡ take at room.old ++ text.now }
    ensures after { drop (at + length text.now) room.new ≡ drop (at + length text.now) room.old }
    ensures room { length room.new ≡ length room.old }
{
    Simd::<u8, WIDTH>::from_slice(text).copy_to_slice(&mut room[at..]);
}

/// Writes a text over bytes from a place on, by its first bytes and by its last ones, of that width.
#[inline(always)]
fn write_ends<const WIDTH: usize>(room: &mut [u8], at: usize, text: &[u8])
    requires within { at + length text.now ≤ length room.old }
    requires wide { WIDTH ≤ length text.now }
    requires narrow { length text.now ≤ WIDTH + WIDTH }
    ensures before { take (at + length text.now) room.new ≡ take at room.old ++ text.now }
    ensures after { drop (at + length text.now) room.new ≡ drop (at + length text.now) room.old }
    ensures room { length room.new ≡ length room.old }
{
    let rest = text.len() - WIDTH;
    write_block::<WIDTH>(room, at, &text[..WIDTH]);
    write_block::<WIDTH>(room, at + rest, &text[rest..]);
}

/// Writes all cells of a row over bytes from a place on.
#[inline(always)]
pub(crate) fn write_cells(room: &mut [u8], at: usize, cells: &[u8; CELLS])
    requires { at + 96 ≤ length room.old }
    ensures before { take (at + length cells.now) room.new ≡ take at room.old ++ cells.now }
    ensures room { length room.new ≡ length room.old }
{
    write_block::<64>(room, at, &cells[..64]);
    write_block::<32>(room, at + 64, &cells[64..]);
}

/// Writes a text over bytes from a place on. Most have 8 to 64 bytes.
#[inline(always)]
pub(crate) fn write_text(room: &mut [u8], at: usize, text: &[u8])
    requires { at + length text.now ≤ length room.old }
    ensures before { take (at + length text.now) room.new ≡ take at room.old ++ text.now }
    ensures after { drop (at + length text.now) room.new ≡ drop (at + length text.now) room.old }
    ensures room { length room.new ≡ length room.old }
{
    let len = text.len();
    if len < 8 || len > 64 {
        write_over(room, at, text);
    } else if len <= 16 {
        write_ends::<8>(room, at, text);
    } else if len <= 32 {
        write_ends::<16>(room, at, text);
    } else {
        write_ends::<32>(room, at, text);
    }
}
