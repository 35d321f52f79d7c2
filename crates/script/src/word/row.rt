//! The row of a word: what a line may have beside it.
ghost use Rattle.std.specs.Prelude.{◌≡◌};
ghost use Rattle.script.specs.Rows.{answering, row_view, without_answer};

/// What may be at one place after a word.
#[derive(Clone, Copy, PartialEq, Eq)]
pub enum Kind {
    /// A number or a variable.
    Value,
    /// A label of the body.
    Label,
    /// A name between double quotes.
    Name,
    /// A name between double quotes, or `0` alone for none.
    NameOrNone,
    /// The name of a software interrupt of the file, between double quotes.
    Softint,
}

/// The row of a word.
#[derive(Clone, Copy)]
pub(super) struct Row {
    /// The text of the word, as it is in a line and in the trace.
    pub text: &'static str,
    /// Whether the word answers, so that a target may be before it.
    pub answers: bool,
    /// The kinds of its arguments, from left to right.
    pub kinds: &'static [Kind],
}

impl Row {
    /// The row of a word that answers.
    #[inline(always)]
    pub(super) fn answering(text: &'static str, kinds: &'static [Kind]) -> Row
        ensures { row_view result ≡ answering text.now kinds.now }
    {
        Row {
            text,
            answers: true,
            kinds,
        }
    }

    /// The row of a word that does not answer.
    #[inline(always)]
    pub(super) fn without_answer(text: &'static str, kinds: &'static [Kind]) -> Row
        ensures { row_view result ≡ without_answer text.now kinds.now }
    {
        Row {
            text,
            answers: false,
            kinds,
        }
    }
}
