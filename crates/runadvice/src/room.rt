//! Room for the lines of one event.
ghost use Rattle.std.specs.Prelude.{◌≡◌, [], Some};
ghost use Rattle.exectrace.specs.{Sink.Tape, declared.sinks.SinkState.SinkState};

use exectrace::{Sink, SinkFault, SinkState};
use std::alloc::Global;

/// Room for the lines of one event.
#[derive(Drop)]
pub struct Room {
    pub bytes: Vec<u8>,
    pub state: SinkState,
    /// In how many writes the bytes came. Each line comes in one, or in more if it is long.
    writes: u32,
}

impl Room {
    /// Room with no line in it.
    pub fn new(alloc: Global) -> Room
        ensures bytes { result.bytes.items ≡ [] }
        ensures state { result.state ≡ SinkState.Good }
    {
        Room {
            bytes: Vec::new(alloc),
            state: SinkState::Good,
            writes: 0,
        }
    }

    /// Whether there may be more than one line in it.
    pub(crate) fn has_more(&self) -> bool {
        self.writes > 1
    }

    /// Empties it.
    pub fn clear(&mut self)
        ensures bytes { self.new.bytes.items ≡ [] }
        ensures state { self.new.state ≡ self.old.state }
    {
        self.bytes.clear();
        self.writes = 0;
    }
}

impl Sink for Room {
    ghost use Rattle.std.specs.Prelude.{Some};

    ghost tape = { λ room. record { taken = Some room.bytes.items; state = room.state } };

    #[inline(always)]
    fn write(&mut self, bytes: &[u8]) -> Result<usize, SinkFault> {
        self.writes = self.writes.saturating_add(1);
        match self.bytes.extend_from_slice(bytes) {
            Ok(()) => {
                self.state = SinkState::Good;
                Ok(bytes.len())
            }
            Err(_) => {
                self.state = SinkState::Failed;
                Err(SinkFault)
            }
        }
    }

    fn state(&self) -> SinkState {
        self.state
    }
}
