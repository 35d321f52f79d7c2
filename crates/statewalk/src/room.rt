//! Room for what an event writes.
ghost use Rattle.std.specs.Prelude.{◌≡◌, [], Some};
ghost use Rattle.exectrace.specs.{Sink.Tape, declared.sinks.SinkState.SinkState};

use exectrace::{Sink, SinkFault, SinkState};
use std::alloc::Global;

/// Room for what an event writes.
#[derive(Drop)]
pub(crate) struct Room {
    pub bytes: Vec<u8>,
    pub state: SinkState,
}

impl Room {
    /// Room with nothing in it.
    pub fn new(alloc: Global) -> Room
        ensures bytes { result.bytes.items ≡ [] }
        ensures state { result.state ≡ SinkState.Good }
    {
        Room {
            bytes: Vec::new(alloc),
            state: SinkState::Good,
        }
    }

    /// Takes out what is in it.
    pub fn clear(&mut self)
        ensures bytes { self.new.bytes.items ≡ [] }
        ensures state { self.new.state ≡ SinkState.Good }
    {
        self.bytes.clear();
        self.state = SinkState::Good;
    }
}

impl Sink for Room {
    ghost use Rattle.std.specs.Prelude.{Some};

    ghost tape = { λ room. record { taken = Some room.bytes.items; state = room.state } };

    fn write(&mut self, bytes: &[u8]) -> Result<usize, SinkFault> {
        match self.bytes.extend_from_slice(bytes) {
            Ok(()) => {
                self.state = SinkState::Good;
                Ok(bytes.len())
            }
            Err(_) => {
                self.state = SinkState::Failed;
                Err(SinkFault)
            }
        }
    }

    fn state(&self) -> SinkState {
        self.state
    }
}
