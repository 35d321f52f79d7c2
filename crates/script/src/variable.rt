//! Variables, by their numbers in a command.

/// A variable, by its number in the order of first sight.
#[derive(Clone, Copy, PartialEq, Eq)]
pub enum Variable {
    /// Private to its body: the order is that of the body.
    Private(u8),
    /// Shared by all bodies: the order is that of the file.
    Shared(u8),
}
