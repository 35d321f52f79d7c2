//! A page of text that is built piece by piece.
ghost use Rattle.std.specs.Prelude.{◌≡◌, ◌++◌, [], false, IfOk, string_bytes};

use std::alloc::{AllocError, Global};

/// A page of text. It remembers if memory was refused, so only its end asks for that.
#[derive(Drop)]
pub struct Page {
    text: String,
    /// Whether memory was refused for a piece.
    is_cut: bool,
}

impl Page {
    /// A page with no text.
    ///
    /// Source: project rule.
    pub fn new(alloc: Global) -> Page
        ensures text { string_bytes result.text ≡ [] }
        ensures whole { result.is_cut ≡ false }
    {
        Page {
            text: String::new(alloc),
            is_cut: false,
        }
    }

    /// Adds a text; nothing any more after memory was refused.
    ///
    /// Source: project rule.
    pub fn push_str(&mut self, text: &str)
        ensures text { self.new.is_cut ≡ false → string_bytes self.new.text ≡ string_bytes self.old.text ++ text.now }
        ensures whole { self.new.is_cut ≡ false → self.old.is_cut ≡ false }
    {
        if !self.is_cut {
            self.is_cut = self.text.push_str(text).is_err();
        }
    }

    /// The text.
    ///
    /// # Errors
    ///
    /// When memory was refused for a piece of it.
    ///
    /// Source: project rule.
    pub fn finish(self) -> Result<String, AllocError>
        ensures text { IfOk result (λ text. string_bytes text ≡ string_bytes self.text) }
        ensures whole { IfOk result (λ text. self.is_cut ≡ false) }
    {
        if self.is_cut {
            Err(AllocError)
        } else {
            Ok(self.text)
        }
    }
}
