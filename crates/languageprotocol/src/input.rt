//! The messages that come in, of which those that are here can be told from those that have to be waited for.

use crate::frames::front_of;
use crate::made::Made;
use std::alloc::Global;
use std::io::{ErrorKind, Read};

/// How many bytes are asked for at once.
const CHUNK: usize = 65_536;

/// What is next of what has come.
#[derive(Drop)]
pub enum Next {
    /// A message.
    Message(Vec<u8>),
    /// No whole message yet.
    Nothing,
    /// What is not a frame.
    Bad,
}

/// How a wait for bytes ended.
#[derive(Clone, Copy, PartialEq, Eq)]
pub enum Waited {
    /// There are more bytes.
    More,
    /// There are no more bytes, and none will come.
    Ended,
    /// Reading failed.
    Failed,
}

/// A part of some bytes, from one place to another.
fn copied(alloc: Global, bytes: &[u8], start: usize, end: usize) -> Made<Vec<u8>> {
    Vec::from_slice(alloc, bytes.get(start..end).unwrap_or(&[]))
}

/// What has come from a reader and is not used up.
#[derive(Drop)]
pub struct Input<R> {
    alloc: Global,
    reader: R,
    bytes: Vec<u8>,
    /// How many of the bytes are used up.
    used: usize,
}

impl<R: Read + Drop> Input<R> {
    /// What comes from a reader.
    pub fn new(alloc: Global, reader: R) -> Input<R> {
        Input {
            alloc,
            reader,
            bytes: Vec::new(alloc),
            used: 0,
        }
    }

    /// What is not used up.
    fn rest(&self) -> &[u8] {
        self.bytes.get(self.used..).unwrap_or(&[])
    }

    /// Takes the next message, if all of it has come.
    ///
    /// # Errors
    ///
    /// If memory is refused; then the message is still there.
    pub fn take(&mut self) -> Made<Next> {
        match front_of(self.rest()) {
            Err(_) => Ok(Next::Bad),
            Ok(None) => Ok(Next::Nothing),
            Ok(Some(found)) => {
                let message = copied(self.alloc, self.rest(), found.start, found.end)?;
                self.used = self.used.saturating_add(found.end);
                Ok(Next::Message(message))
            }
        }
    }

    /// Forgets the bytes that are used up.
    fn forget_used(&mut self) -> Made<()> {
        let rest = Vec::from_slice(self.alloc, self.rest())?;
        self.bytes = rest;
        self.used = 0;
        Ok(())
    }

    /// Reads once.
    fn read_some(&mut self) -> Made<Waited> {
        let mut chunk = [0u8; CHUNK];
        match self.reader.read(&mut chunk) {
            Ok(0) => Ok(Waited::Ended),
            Ok(count) => {
                self.bytes
                    .extend_from_slice(chunk.get(..count).unwrap_or(&[]))?;
                Ok(Waited::More)
            }
            Err(error) => Ok(if error.kind() == ErrorKind::Interrupted {
                Waited::More
            } else {
                Waited::Failed
            }),
        }
    }

    /// Waits for more bytes, and forgets those that are used up.
    ///
    /// # Errors
    ///
    /// If memory is refused.
    pub fn wait(&mut self) -> Made<Waited> {
        if self.used > 0 {
            self.forget_used()?;
        }
        self.read_some()
    }
}
