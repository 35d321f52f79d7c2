//! The listener of a search: it keeps what is seen of a way.
ghost use Rattle.std.specs.Prelude.{◌≡◌, []};
ghost use Rattle.exectrace.specs.{Heard.heard, declared.sinks.SinkState.SinkState};
ghost use Rattle.wayrun.specs.Look.{is_alert, is_print, is_seen, looking};
ghost use Rattle.wayrun.specs.Look as seen;

use crate::room::Room;
use crate::see::See;
use exectrace::{Said, SinkState, Witness, print};
use script::{PlainWord, Word};
use std::alloc::Global;

/// What is kept of a way, and room for it.
#[derive(Drop)]
pub(crate) struct Look {
    pub see: See,
    pub room: Room,
}

impl Look {
    /// A listener with room for nothing yet.
    pub(crate) fn new(alloc: Global) -> Look {
        Look {
            see: See::End,
            room: Room::new(alloc),
        }
    }

    /// It begins anew, and is to see this.
    pub(crate) fn begin(&mut self, see: See)
        ensures see { self.new.see ≡ see }
        ensures empty { self.new.room.bytes.items ≡ [] }
        ensures good { self.new.room.state ≡ SinkState.Good }
    {
        self.see = see;
        self.room.bytes.clear();
        self.room.state = SinkState::Good;
    }
}

/// Whether a call was refused.
fn is_alert(said: &Said<'_>) -> bool
    ensures { result ≡ is_alert (heard said.now) }
{
    match said {
        Said::Alert {
            code: _,
            by: _,
            word: _,
        } => true,
        _ => false,
    }
}

/// Whether it is the word Print.
fn names_print(word: Word) -> bool
    ensures { result ≡ seen.names_print word }
{
    match word {
        Word::Plain(PlainWord::Print) => true,
        _ => false,
    }
}

/// Whether it is a call of Print.
fn is_print(said: &Said<'_>) -> bool
    ensures { result ≡ is_print (heard said.now) }
{
    match said {
        Said::Call {
            by: _,
            word,
            arguments: _,
            quoted: _,
            ends: _,
        } => names_print(*word),
        _ => false,
    }
}

/// Whether the line of what is said is seen.
fn is_seen(see: See, said: &Said<'_>) -> bool
    ensures { result ≡ is_seen see (heard said.now) }
{
    match see {
        See::End => is_alert(said),
        See::Prints => is_alert(said) || is_print(said),
        See::Trace => true,
    }
}

/// It keeps the lines that are seen, and listens no more once memory was refused.
impl Witness for Look {
    ghost use Rattle.wayrun.specs.Look.{looking};
    ghost use Rattle.std.specs.Prelude.{Some};

    ghost hearing = { looking };

    ghost told = { λ look. record { see = look.see; tape = record { taken = Some look.room.bytes.items; state = look.room.state } } };

    fn hear(&mut self, said: &Said<'_>) {
        if is_seen(self.see, said) {
            print(said, &mut self.room);
        }
    }

    fn is_good(&self) -> bool {
        match self.room.state {
            SinkState::Good => true,
            SinkState::Empty(_) => false,
            SinkState::Failed => false,
        }
    }
}
