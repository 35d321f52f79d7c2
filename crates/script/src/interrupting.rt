//! Which words the body of a software interrupt or of a server may have.
ghost use Rattle.std.specs.Prelude.{◌≡◌};
ghost use Rattle.script.specs.Interrupting.{is_word_of_interrupt};

use crate::word::{PlainWord, PortWord, SignalWord, Word};

/// Whether the body of a software interrupt or of a server may have the word.
///
/// Source: project rule.
pub fn is_word_of_interrupt(word: Word) -> bool
    ensures { result ≡ is_word_of_interrupt word }
{
    match word {
        Word::Plain(word) => match word {
            PlainWord::Jump | PlainWord::JumpZ | PlainWord::JumpNZ => false,
            _ => true,
        },
        Word::Signals(word) => match word {
            SignalWord::Signal => true,
            _ => false,
        },
        Word::Ports(word) => match word {
            PortWord::PutMsg | PortWord::GetMsg | PortWord::ReplyMsg => true,
            _ => false,
        },
        Word::Interrupts(_) => true,
        _ => false,
    }
}
