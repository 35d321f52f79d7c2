//! A gap of a region.

/// A stretch of free memory: its address and its size in bytes.
#[derive(Clone, Copy)]
pub struct Gap {
    /// The address at which it begins.
    pub address: u32,
    /// Its size in bytes, a multiple of 8.
    pub size: u32,
}
