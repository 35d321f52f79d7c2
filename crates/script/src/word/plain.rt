//! Plain words: they set variables, calculate, jump and print, and ask nothing of Exec.
ghost use Rattle.std.specs.Prelude.{◌≡◌};
ghost use Rattle.script.specs.{PlainWords.plain_row, Rows.row_view};

use crate::word::Word;
use crate::word::row::{Kind, Row};

/// A word that sets a variable, calculates, jumps or prints.
#[derive(Clone, Copy, Debug, PartialEq, Eq)]
pub enum PlainWord {
    /// Gives its argument to the target. It prints nothing.
    Set,
    /// Gives the sum of its arguments, modulo 2^32, to the target. It prints nothing.
    Add,
    /// Gives the first argument minus the second, modulo 2^32, to the target. It prints nothing.
    Sub,
    /// Gives the bitwise and of its arguments to the target. It prints nothing.
    And,
    /// Gives the bitwise or of its arguments to the target. It prints nothing.
    Or,
    /// Goes on at the label.
    Jump,
    /// Goes on at the label if its argument is 0.
    JumpZ,
    /// Goes on at the label if its argument is not 0.
    JumpNZ,
    /// Prints its argument.
    Print,
}

/// The words of this group.
pub(super) const ALL: [Word; 9] = [
    Word::Plain(PlainWord::Set),
    Word::Plain(PlainWord::Add),
    Word::Plain(PlainWord::Sub),
    Word::Plain(PlainWord::And),
    Word::Plain(PlainWord::Or),
    Word::Plain(PlainWord::Jump),
    Word::Plain(PlainWord::JumpZ),
    Word::Plain(PlainWord::JumpNZ),
    Word::Plain(PlainWord::Print),
];

impl PlainWord {
    /// The row of the word.
    #[inline(always)]
    pub(super) fn row(self) -> Row
        ensures { row_view result ≡ plain_row self }
    {
        match self {
            PlainWord::Set => Row::answering("Set", &[Kind::Value]),
            PlainWord::Add => Row::answering("Add", &[Kind::Value, Kind::Value]),
            PlainWord::Sub => Row::answering("Sub", &[Kind::Value, Kind::Value]),
            PlainWord::And => Row::answering("And", &[Kind::Value, Kind::Value]),
            PlainWord::Or => Row::answering("Or", &[Kind::Value, Kind::Value]),
            PlainWord::Jump => Row::without_answer("Jump", &[Kind::Label]),
            PlainWord::JumpZ => Row::without_answer("JumpZ", &[Kind::Value, Kind::Label]),
            PlainWord::JumpNZ => Row::without_answer("JumpNZ", &[Kind::Value, Kind::Label]),
            PlainWord::Print => Row::without_answer("Print", &[Kind::Value]),
        }
    }
}
