//! A line that is being built, in fixed room. Short texts are copied in two moves of one width, which may overlap, so
//! that no loop runs.
ghost use Rattle.std.specs.Prelude.{◌≡◌, ◌+◌, ◌*◌, ◌≤◌, ◌↔◌, [], ◌++◌, length, take, IsOk, OnOk, OnErr};

use crate::cells::ROOM;
use std::marker::Model;

/// A text has no room in a line that is being built.
#[derive(Clone, Copy)]
pub(crate) struct NoRoom;

/// What is built of a line and is not yet handed over. Its cells are lent, so that its length can be kept in a
/// register.
#[derive(Drop)]
pub(crate) struct Draft<'a> {
    cells: &'a mut [u8; ROOM],
    len: usize,
}

impl<'a> Model for Draft<'a> {
    ghost use Rattle.std.specs.Prelude.{◌≡◌, ℕ, ◌≤◌, length, take};
    ghost use Rattle.arrayvec.specs.ArrayVec.{ArrayVec as Items};

    ghost Value = { Items ℕ };

    ghost view = { λ d. record { items = take d.len d.cells.now } };

    ghost invariant = { λ d. (d.len ≤ 160) × (d.len ≤ length d.cells.now) };
}

/// Writes a text over the cells from a place on.
#[inline(always)]
pub(crate) fn write_at(cells: &mut [u8; ROOM], at: usize, text: &[u8])
    requires { at + length text.now ≤ ROOM }
    ensures { take (at + length text.now) cells.new ≡ take at cells.old ++ text.now }
{
    cells[at..at + text.len()].copy_from_slice(text);
}

/// Writes a text, as long as that width, over the cells from a place on. All of it is read before the first byte is
/// written, so that nothing asks at run time whether they overlap.
#[inline(always)]
fn write_block<const WIDTH: usize>(cells: &mut [u8; ROOM], at: usize, text: &[u8])
    requires room { at + WIDTH ≤ ROOM }
    requires whole { length text.now ≡ WIDTH }
    ensures { take (at + length text.now) cells.new ≡ take at cells.old ++ text.now }
{
    if let Ok(block) = <[u8; WIDTH]>::try_from(text) {
        write_at(cells, at, &block);
    }
}

/// Writes a text over the cells from a place on, by its first bytes and by its last ones, of that width.
#[inline(always)]
fn write_ends<const WIDTH: usize>(cells: &mut [u8; ROOM], at: usize, text: &[u8])
    requires room { at + length text.now ≤ ROOM }
    requires wide { WIDTH ≤ length text.now }
    requires narrow { length text.now ≤ WIDTH + WIDTH }
    ensures { take (at + length text.now) cells.new ≡ take at cells.old ++ text.now }
{
    let rest = text.len() - WIDTH;
    write_block::<WIDTH>(cells, at, &text[..WIDTH]);
    write_block::<WIDTH>(cells, at + rest, &text[rest..]);
}

/// Writes a text of at most 32 bytes over the cells from a place on: a name, or a word.
#[inline(always)]
pub(crate) fn write_short(cells: &mut [u8; ROOM], at: usize, text: &[u8])
    requires room { at + length text.now ≤ ROOM }
    requires short { length text.now ≤ 32 }
    ensures { take (at + length text.now) cells.new ≡ take at cells.old ++ text.now }
{
    let len = text.len();
    if len >= 4 {
        if len <= 8 {
            write_ends::<4>(cells, at, text);
        } else if len <= 16 {
            write_ends::<8>(cells, at, text);
        } else {
            write_ends::<16>(cells, at, text);
        }
    } else if len >= 2 {
        write_ends::<2>(cells, at, text);
    } else if len == 1 {
        write_at(cells, at, text);
    }
}

/// Writes a text over the cells from a place on. Most are short.
#[inline(always)]
fn write_text(cells: &mut [u8; ROOM], at: usize, text: &[u8])
    requires { at + length text.now ≤ ROOM }
    ensures { take (at + length text.now) cells.new ≡ take at cells.old ++ text.now }
{
    if text.len() <= 32 {
        write_short(cells, at, text);
    } else {
        write_at(cells, at, text);
    }
}

impl<'a> Draft<'a> {
    /// A line of which nothing is built, to be built in these cells.
    #[inline(always)]
    pub(crate) fn new(cells: &'a mut [u8; ROOM]) -> Self
        ensures { result.items ≡ [] }
    {
        Draft { cells, len: 0 }
    }

    /// What is built.
    #[inline(always)]
    pub(crate) fn as_slice(&self) -> &[u8]
        ensures { result.now ≡ self.now.items }
    {
        &self.cells[..self.len]
    }

    /// Begins the line anew.
    pub(crate) fn clear(&mut self)
        ensures { self.new.items ≡ [] }
    {
        self.len = 0;
    }

    /// Adds a part whose length is fixed, or nothing if it has no room.
    #[inline(always)]
    pub(crate) fn try_part(&mut self, part: &[u8]) -> Result<(), NoRoom>
        ensures ok { OnOk result (self.new.items ≡ self.old.items ++ part.now) }
        ensures err { OnErr result (self.new ≡ self.old) }
    {
        if ROOM - self.len < part.len() {
            return Err(NoRoom);
        }
        write_at(&mut *self.cells, self.len, part);
        self.len += part.len();
        Ok(())
    }

    /// Adds a text, or nothing if it has no room.
    #[inline(always)]
    pub(crate) fn try_text(&mut self, text: &[u8]) -> Result<(), NoRoom>
        ensures ok { OnOk result (self.new.items ≡ self.old.items ++ text.now) }
        ensures err { OnErr result (self.new ≡ self.old) }
    {
        if ROOM - self.len < text.len() {
            return Err(NoRoom);
        }
        write_text(&mut *self.cells, self.len, text);
        self.len += text.len();
        Ok(())
    }
}
