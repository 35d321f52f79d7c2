//! The rows that are kept until many can be put together.
ghost use Rattle.std.specs.Prelude.{◌≡◌, ◌∷◌, ◌≤◌, ◌++◌, ◌+◌, ◌-◌, [], drop, length, replicate, take, OnOk};
ghost use Rattle.exectrace.specs.Sink.{Adds};
ghost use Rattle.execlog.specs.Rows.{columns};

use crate::head::Head;
use crate::moves::write_over;
use crate::sheet::WIDTH as CELLS;
use exectrace::Sink;
use exectrace::sinks::put;
use std::alloc::{AllocError, Global};
use std::marker::Model;

/// How many cells a short row is written in, of which the last ones may be left over.
const ROW: usize = 128;

/// How many bytes are put at once: more than a buffer before a file keeps, so that they are not copied once more, and
/// whole blocks of a file, which takes those with less work.
const MOST_KEPT: usize = 524_288;

/// How many bytes a file has mostly taken before: those of a line that names the columns.
const HEADING: usize = 74;

/// Bytes that are kept in the first ones of cells, of which the others are spare: a row is written there with no test
/// of its own for room.
#[derive(Drop)]
pub struct Page {
    cells: Vec<u8>,
    len: usize,
    /// At how many bytes the first ones are put.
    flush_at: usize,
}

impl Model for Page {
    ghost use Rattle.std.specs.Prelude.{ℕ, List, ◌≤◌, length, take};

    ghost Value = { List ℕ };

    ghost view = { λ p. take p.len p.cells.items };

    ghost invariant = { λ p. p.len ≤ length p.cells.items };
}

/// Makes room for that many bytes after the first ones, and for as many again as there were cells.
#[cold]
#[inline(never)]
fn widen(cells: &mut Vec<u8>, len: usize, more: usize) -> Result<(), AllocError>
    requires { len ≤ length cells.old.items }
    ensures same { take len cells.new.items ≡ take len cells.old.items }
    ensures within { len ≤ length cells.new.items }
    ensures room { OnOk result (len + more ≤ length cells.new.items) }
{
    match len.checked_add(more) {
        None => Err(AllocError),
        Some(least) => cells.resize(least.saturating_add(cells.len()), 0),
    }
}

impl Page {
    /// No byte.
    pub(crate) fn new(alloc: Global) -> Page
        ensures { result ≡ [] }
    {
        Page {
            cells: Vec::new(alloc),
            len: 0,
            flush_at: MOST_KEPT - HEADING,
        }
    }

    /// The bytes.
    pub(crate) fn as_slice(&self) -> &[u8]
        ensures { result.now ≡ self.now }
    {
        &self.cells[..self.len]
    }

    /// Puts the first bytes if there are many, and keeps the others.
    #[inline(always)]
    pub(crate) fn flush_if_full<W: Sink>(&mut self, out: &mut W)
        ensures { Adds (W.tape out.old) (W.tape out.new) self.old self.new [] }
    {
        if self.len >= self.flush_at {
            self.put_first(out);
        }
    }

    /// Puts the first bytes, and keeps the others.
    #[cold]
    #[inline(never)]
    fn put_first<W: Sink>(&mut self, out: &mut W)
        ensures { Adds (W.tape out.old) (W.tape out.new) self.old self.new [] }
    {
        let len = self.len;
        let first = if self.flush_at < len {
            self.flush_at
        } else {
            len
        };
        put(&self.cells[..first], out);
        self.cells.copy_within(first..len, 0);
        self.len = len - first;
        self.flush_at = MOST_KEPT;
    }

    /// Adds bytes.
    ///
    /// # Errors
    ///
    /// When memory is refused.
    ///
    /// Source: project rule.
    pub fn extend_from_slice(&mut self, bytes: &[u8]) -> Result<(), AllocError>
        ensures { OnOk result (self.new ≡ self.old ++ bytes.now) }
    {
        let len = self.len;
        if self.cells.len() - len < bytes.len() {
            widen(&mut self.cells, len, bytes.len())?;
        }
        write_over(&mut self.cells, len, bytes);
        self.len = len + bytes.len();
        Ok(())
    }

    /// Adds columns, and the first cells, that many, with a text over those from a place on.
    #[inline(always)]
    pub(crate) fn push_cells(
        &mut self,
        head: &Head,
        cells: &[u8; CELLS],
        at: usize,
        len: usize,
        text: &[u8],
    ) -> Result<(), AllocError>
        requires narrow { 64 - head.now.start ≤ 32 }
        requires within { at + length text.now ≤ len }
        requires few { len ≤ 96 }
        ensures { OnOk result (self.new ≡ self.old ++ (columns head.now.number head.now.clock
            ++ (take at cells.now ++ (text.now ++ take (len - (at + length text.now)) (drop (at + length text.now) cells.now))))) }
    {
        let from = self.len;
        if self.cells.len() - from < ROW {
            widen(&mut self.cells, from, ROW)?;
        }
        self.len = head.write_row(&mut self.cells, from, cells, at, len, text);
        Ok(())
    }

    /// Adds columns, an empty column of a line, a text, and a line feed.
    #[inline(always)]
    pub(crate) fn push_bare(&mut self, head: &Head, text: &[u8]) -> Result<(), AllocError>
        requires narrow { 64 - head.now.start ≤ 32 }
        requires few { length text.now ≤ 87 }
        ensures { OnOk result (self.new ≡ self.old ++ (columns head.now.number head.now.clock ++ (replicate 8 32 ++ (text.now ++ 10 ∷ [])))) }
    {
        let from = self.len;
        if self.cells.len() - from < ROW {
            widen(&mut self.cells, from, ROW)?;
        }
        self.len = head.write_bare(&mut self.cells, from, text);
        Ok(())
    }
}
