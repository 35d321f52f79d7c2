//! One library: what is known of it from the start, and what is kept of it while it is loaded.
use execlist::key::Name;

/// A library that may be opened. RKM Libraries, Exec Libraries: `lib_Node.ln_Name` and `lib_Version`.
#[derive(Clone, Copy)]
pub struct LibInit {
    /// Its name, at most 31 bytes.
    pub name: Name,
    pub version: u16,
    /// The bytes of memory that it takes while it is loaded.
    pub size: u32,
}

/// A loaded library. RKM Libraries, Exec Libraries: `lib_OpenCnt`, and LIBF_DELEXP (bit 3) of `lib_Flags`.
#[derive(Clone, Copy)]
pub struct Loaded {
    /// The address of its block.
    pub base: u32,
    /// How often it is open.
    pub count: u16,
    /// Whether it is to be expunged when it is closed for the last time.
    pub delayed_expunge: bool,
}
