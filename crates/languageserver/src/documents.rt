//! The documents that an editor has open.

use crate::made::Made;
use execadvice::Diagnostic;
use std::alloc::Global;

/// A document that an editor has open.
#[derive(Drop)]
pub struct Document {
    /// Its name.
    pub uri: String,
    /// Its text.
    pub text: String,
    /// Whether it has to be looked at again.
    pub is_changed: bool,
    /// What was found when it was looked at.
    pub found: Vec<Diagnostic>,
}

/// The documents that an editor has open.
#[derive(Drop)]
pub struct Documents {
    alloc: Global,
    open: Vec<Document>,
}

impl Documents {
    /// No document.
    pub(crate) fn new(alloc: Global) -> Documents {
        Documents {
            alloc,
            open: Vec::new(alloc),
        }
    }

    /// The document of a name.
    pub(crate) fn named(&self, uri: &str) -> Option<&Document> {
        self.open.iter().find(|one| one.uri.as_str() == uri)
    }

    /// The place of the document of a name.
    fn place(&self, uri: &str) -> Option<usize> {
        self.open.iter().position(|one| one.uri.as_str() == uri)
    }

    /// Gives the document of a name a text; one that was not open is opened.
    pub(crate) fn set(&mut self, uri: &str, text: &str) -> Made<()> {
        let text = String::from_str(self.alloc, text)?;
        let place = self.place(uri);
        if let Some(one) = place.and_then(|at| self.open.get_mut(at)) {
            one.text = text;
            one.is_changed = true;
            return Ok(());
        }
        let uri = String::from_str(self.alloc, uri)?;
        self.open.push(Document {
            uri,
            text,
            is_changed: true,
            found: Vec::new(self.alloc),
        })?;
        Ok(())
    }

    /// Closes the document of a name.
    pub(crate) fn close(&mut self, uri: &str) {
        let Some(at) = self.place(uri) else {
            return;
        };
        if at < self.open.len() {
            self.open.remove(at);
        }
    }

    /// Has the document of a name looked at again.
    pub(crate) fn mark(&mut self, uri: &str) {
        let place = self.place(uri);
        if let Some(one) = place.and_then(|at| self.open.get_mut(at)) {
            one.is_changed = true;
        }
    }

    /// How many documents there are.
    pub(crate) fn count(&self) -> usize {
        self.open.len()
    }

    /// The document at a place.
    pub(crate) fn at(&self, place: usize) -> Option<&Document> {
        self.open.get(place)
    }

    /// Notes what was found in the document at a place.
    pub(crate) fn note(&mut self, place: usize, found: Vec<Diagnostic>) {
        if let Some(one) = self.open.get_mut(place) {
            one.is_changed = false;
            one.found = found;
        }
    }
}
