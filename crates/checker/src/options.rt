//! What a command line asks for.

use execadvice::Look;

/// When what is written has colors.
#[derive(Clone, Copy, PartialEq, Eq)]
pub enum Color {
    /// On a terminal, unless the environment refuses them.
    Auto,
    Always,
    Never,
}

impl Color {
    /// The one of that name.
    ///
    /// Source: project rule.
    pub(crate) fn named(word: &str) -> Option<Color> {
        match word {
            "auto" => Some(Color::Auto),
            "always" => Some(Color::Always),
            "never" => Some(Color::Never),
            _ => None,
        }
    }

    /// Whether what is written has colors, if `auto` means that.
    pub(crate) fn is_on(self, auto: bool) -> bool {
        match self {
            Color::Auto => auto,
            Color::Always => true,
            Color::Never => false,
        }
    }
}

/// How what was found is written.
#[derive(Clone, Copy)]
pub enum Form {
    /// As lines.
    Lines(Look),
    /// As one document in the format SARIF.
    Document,
}
