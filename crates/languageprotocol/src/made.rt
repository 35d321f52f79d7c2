//! What is made in memory.

use std::alloc::AllocError;

/// What was made, or that memory was refused.
pub type Made<T> = Result<T, AllocError>;
