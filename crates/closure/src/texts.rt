//! Texts by number.
ghost use Rattle.std.specs.Prelude.{◌≡◌, ◌<◌, ◌++◌, [], ◌∷◌, true, length, slice_index_or, OnOk};

use std::alloc::{AllocError, Global};
use std::marker::Model;

/// Texts, each by its number from 0.
#[derive(Drop)]
pub struct Texts {
    texts: Vec<Vec<u8>>,
}

impl Model for Texts {
    ghost use Rattle.std.specs.Prelude.{ℕ, List, map};

    ghost Value = { List (List ℕ) };

    ghost view = { λ t. map (λ v. v.items) t.texts.items };
}

impl Texts {
    /// No texts.
    ///
    /// Source: project rule.
    pub fn new(alloc: Global) -> Texts
        ensures { result ≡ [] }
    {
        Texts {
            texts: Vec::new(alloc),
        }
    }

    /// Answers how many there are.
    ///
    /// Source: project rule.
    pub fn len(&self) -> usize
        ensures { result ≡ length self.now }
    {
        self.texts.len()
    }

    /// Adds a text.
    ///
    /// # Errors
    ///
    /// Memory was refused.
    ///
    /// Source: project rule.
    pub fn push(&mut self, alloc: Global, text: &[u8]) -> Result<(), AllocError>
        ensures { OnOk result (self.new ≡ self.old ++ text.now ∷ []) }
    {
        let copy = Vec::from_slice(alloc, text)?;
        self.texts.push(copy)?;
        Ok(())
    }

    /// Whether the text of a number is this one. Past the last it is not.
    ///
    /// Source: project rule.
    pub fn has_at(&self, i: usize, text: &[u8]) -> bool
        ensures within { result ≡ true → i < length self.now }
        ensures same { result ≡ true → slice_index_or self.now i [] ≡ text.now }
    {
        i < self.texts.len() && self.texts[i].as_slice() == text
    }
}
