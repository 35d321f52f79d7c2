//! What is searched: the actions, the kinds of extras, the number of ways and the part of them.
ghost use Rattle.std.specs.Prelude.{◌≡◌, ◌≤◌, length};
ghost use Rattle.ways.specs.Ways.{count_all};

use script::{Event, MachineFile};
use ways::Sizes;

/// What is searched.
#[derive(Drop)]
pub struct Frame {
    pub file: MachineFile,
    pub actions: Vec<Event>,
    pub kinds: Vec<Event>,
    pub sizes: Sizes,
    /// The number of all ways.
    pub ways: u64,
    /// The digests of both texts.
    pub machine: String,
    pub events: String,
    ghost right: { sizes.kinds ≡ length kinds.items },
    ghost fits: { length actions.items ≤ sizes.places },
    ghost few: { ways ≤ 1099511627776 },
    ghost all: { ways ≡ count_all sizes.kinds sizes.most (length actions.items) },
}
