//! One message, and the types that a message goes through.

/// The type of a message that was put at a port. By exec/nodes.h.
pub const NT_MESSAGE: u8 = 5;

/// The type of a message that was replied and has no reply port. By exec/nodes.h.
pub const NT_FREEMSG: u8 = 6;

/// The type of a message that was put at its reply port. By exec/nodes.h.
pub const NT_REPLYMSG: u8 = 7;

/// The type of a new message (project rule). By exec/nodes.h.
pub const NT_UNKNOWN: u8 = 0;

/// A message without its place: its type, its word, and its reply port or 0. RKM Libraries, Exec Messages and Ports.
#[derive(Clone, Copy, Debug)]
pub struct Message {
    pub kind: u8,
    pub word: u32,
    pub reply: u32,
}
