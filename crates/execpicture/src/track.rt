//! What is shown from column to column, kept as spans in which it stays the same.
use std::alloc::{AllocError, Global};

/// After these columns this is shown.
#[derive(Drop)]
pub(crate) struct Span<T> {
    /// The column after which it begins.
    pub from: u32,
    /// The column after which it is over.
    pub to: u32,
    pub shown: T,
}

/// What is shown after each column, one after another.
#[derive(Drop)]
pub(crate) struct Track<T> {
    /// The column after which what is noted next is shown.
    next: u32,
    spans: Vec<Span<T>>,
}

impl<T: Copy + PartialEq> Track<T> {
    /// Nothing is shown before a column.
    pub fn new(alloc: Global, column: u32) -> Track<T> {
        Track {
            next: column,
            spans: Vec::new(alloc),
        }
    }

    /// Adds what is shown after one more column.
    pub fn note(&mut self, shown: T) -> Result<(), AllocError> {
        let from = self.next;
        self.next = from.saturating_add(1);
        if let Some(last) = self.spans.last_mut() {
            if last.shown == shown {
                last.to = self.next;
                return Ok(());
            }
        }
        self.spans.push(Span {
            from,
            to: self.next,
            shown,
        })?;
        Ok(())
    }

    /// The spans: they show, one after another, what was noted.
    pub fn spans(&self) -> &[Span<T>] {
        &self.spans
    }
}
