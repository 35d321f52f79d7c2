//! The table of blocks: a slot for each unit of 8 bytes.
ghost use Rattle.std.specs.Prelude.{◌≡◌};
ghost use Rattle.memlist.specs.Areas.{block_of};

/// What begins at a unit: a block of that size in bytes with that tag, or none if the size is 0.
#[derive(Clone, Copy)]
pub struct Slot {
    pub size: u32,
    pub tag: u32,
}

impl Slot {
    pub const EMPTY: Slot = Slot { size: 0, tag: 0 };

    /// The size and the tag of the block that begins there.
    pub fn block(&self) -> Option<(u32, u32)>
        ensures { result ≡ block_of self.now }
    {
        if self.size == 0 {
            None
        } else {
            Some((self.size, self.tag))
        }
    }
}
