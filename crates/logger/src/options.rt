//! What a command line asks for.

/// The form in which a run is shown.
#[derive(Clone, Copy, PartialEq, Eq)]
pub enum View {
    /// A row for each line of the trace.
    Rows,
    /// A JSON object for each line of the trace.
    Json,
    /// A picture of the run, as an SVG document.
    Svg,
    /// The run in the Trace Event Format.
    Chrome,
    /// All that the machine shows after the step of a number.
    State(u64),
}

/// What a command line asks for.
#[derive(Clone, Copy)]
pub struct Options<'a> {
    /// The form.
    pub view: View,
    /// Whether the words that print nothing are shown too.
    pub plain_words: bool,
    /// The number of the first step that is shown.
    pub from: Option<u64>,
    /// The number of the last one.
    pub to: Option<u64>,
    /// The line of the machine file, if only what is at one is shown.
    pub at: Option<u64>,
    /// The name of who acts, if only what one does is shown.
    pub task: Option<&'a str>,
}

/// The number that a word says in decimal, up to 12 digits.
///
/// Source: project rule.
pub fn number_in(word: &str) -> Option<u64> {
    let digits = word.as_bytes();
    if digits.is_empty() || digits.len() > 12 {
        return None;
    }
    let mut number = 0u64;
    for digit in digits {
        if !digit.is_ascii_digit() {
            return None;
        }
        number = number
            .saturating_mul(10)
            .saturating_add(u64::from(*digit).saturating_sub(48));
    }
    Some(number)
}
