//! A sink that keeps what it takes, until it is emptied. What a step prints mostly has room in cells of a fixed size.
ghost use Rattle.std.specs.Prelude.{◌≡◌, ◌++◌, [], Some, false, length, take, true, OnErr, OnOk};
ghost use Rattle.exectrace.specs.declared.sinks.SinkState.{SinkState};

use crate::moves::write_text;
use exectrace::sinks::SinkFault;
use exectrace::{Sink, SinkState};
use std::alloc::{AllocError, Global};
use std::marker::Model;

/// How many bytes have room in the cells.
const ROOM: usize = 1_024;

/// Bytes that are kept: in the cells, or in a vector if they have no room there.
#[derive(Drop)]
pub(crate) struct Kept {
    cells: [u8; ROOM],
    len: usize,
    /// All of them, if they have no room in the cells.
    more: Vec<u8>,
}

impl Model for Kept {
    ghost use Rattle.std.specs.Prelude.{ℕ, List, [], ◌≡◌, ◌≤◌, ◌<◌, ◌++◌, take};

    ghost Value = { List ℕ };

    ghost view = { λ k. take k.len k.cells ++ k.more.items };

    ghost invariant = { λ k. (k.len ≤ 1024) × (0 < k.len → k.more.items ≡ []) };
}

impl Kept {
    /// No byte.
    fn new(alloc: Global) -> Kept
        ensures { result ≡ [] }
    {
        Kept {
            cells: [0; ROOM],
            len: 0,
            more: Vec::new(alloc),
        }
    }

    /// The bytes.
    #[inline(always)]
    pub(crate) fn as_slice(&self) -> &[u8]
        ensures { result.now ≡ self.now }
    {
        if self.len > 0 {
            &self.cells[..self.len]
        } else {
            &self.more
        }
    }

    /// Forgets them, and keeps their room.
    #[inline(always)]
    fn clear(&mut self)
        ensures { self.new ≡ [] }
    {
        self.len = 0;
        self.more.clear();
    }

    /// Adds bytes, if there is room for them in the cells, and answers whether there was.
    #[inline(always)]
    fn add(&mut self, bytes: &[u8]) -> bool
        ensures added { result ≡ true → self.new ≡ self.old ++ bytes.now }
        ensures kept { result ≡ false → self.new ≡ self.old }
    {
        let len = self.len;
        if bytes.len() > ROOM - len || !self.more.is_empty() {
            return false;
        }
        write_text(&mut self.cells, len, bytes);
        self.len = len + bytes.len();
        true
    }

    /// Adds bytes, and has all of them in the vector.
    #[cold]
    #[inline(never)]
    fn add_more(&mut self, bytes: &[u8]) -> Result<(), AllocError>
        ensures added { OnOk result (self.new ≡ self.old ++ bytes.now) }
        ensures kept { OnErr result (self.new ≡ self.old) }
    {
        let len = self.len;
        if len > 0 {
            self.more.extend_from_slice(&self.cells[..len])?;
            self.len = 0;
        }
        self.more.extend_from_slice(bytes)
    }
}

/// The bytes that it has taken, and how its last write went.
#[derive(Drop)]
pub(crate) struct Buffer {
    pub(crate) bytes: Kept,
    pub(crate) state: SinkState,
}

impl Buffer {
    /// A good sink that has taken nothing.
    pub(crate) fn new(alloc: Global) -> Buffer
        ensures bytes { result.bytes ≡ [] }
        ensures state { result.state ≡ SinkState.Good }
    {
        Buffer {
            bytes: Kept::new(alloc),
            state: SinkState::Good,
        }
    }

    /// Forgets what it has taken, and keeps its room.
    #[inline(always)]
    pub(crate) fn clear(&mut self)
        ensures bytes { self.new.bytes ≡ [] }
        ensures state { self.new.state ≡ self.old.state }
    {
        self.bytes.clear();
    }
}

impl Sink for Buffer {
    ghost tape = { λ r. record { taken = Some r.bytes; state = r.state } };

    #[inline(always)]
    fn write(&mut self, bytes: &[u8]) -> Result<usize, SinkFault> {
        if self.bytes.add(bytes) {
            self.state = SinkState::Good;
            return Ok(bytes.len());
        }
        match self.bytes.add_more(bytes) {
            Ok(()) => {
                self.state = SinkState::Good;
                Ok(bytes.len())
            }
            Err(_) => {
                self.state = SinkState::Failed;
                Err(SinkFault)
            }
        }
    }

    fn state(&self) -> SinkState {
        self.state
    }
}
