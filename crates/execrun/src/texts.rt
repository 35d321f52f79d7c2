//! Where the program has its texts from: the system's files, or what is in for them.
ghost use Rattle.std.specs.Prelude.{ℕ, List, Option, IfOk};
ghost use Rattle.execrun.specs.Texts.{Opens, nothing_told};

use std::io::Read;
use std::rt::Files;
use std::{fs, io};

/// Texts by path.
pub trait Texts {
    /// A text that is open for reading.
    type Text: Read + Drop;

    /// The bytes that are at a path, if that is reported.
    ghost text_at: { Self → List ℕ → Option (List ℕ) };

    /// Opens the text at a path; all of its bytes are before the reader.
    ///
    /// # Errors
    ///
    /// `OutOfMemory` if memory is refused, and another kind if there is no text that can be read.
    fn open_text(&self, path: &str) -> io::Result<Self::Text>
        ensures { IfOk result (λ text. Opens (text_at self.now path.now) (Self.Text.remaining text)) };
}

/// The files of the system, of which nothing is reported before they are read.
#[derive(Clone, Copy)]
pub struct SystemTexts<'a, R>(pub &'a R);

impl<R: Files> Texts for SystemTexts<'_, R> {
    type Text = R::File;

    ghost text_at = { λ _. nothing_told };

    fn open_text(&self, path: &str) -> io::Result<R::File> {
        fs::open(self.0, path)
    }
}
