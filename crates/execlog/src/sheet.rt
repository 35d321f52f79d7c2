//! What is before and after a line in its row, in cells that are copied at once; the line is then written over the
//! spaces.
ghost use Rattle.std.specs.Prelude.{◌≡◌, ◌≤◌, ◌+◌, IfSome};
ghost use Rattle.execlog.specs.Rows.{IsSheet};

use crate::moves::write_over;

/// How many cells there are.
pub(crate) const WIDTH: usize = 96;

/// Cells that begin with what is before and after a line that has no byte.
#[derive(Clone, Copy)]
pub(crate) struct Sheet {
    pub(crate) cells: [u8; WIDTH],
    /// Where the line begins.
    pub(crate) at: usize,
    /// How many cells are used.
    pub(crate) len: usize,
    /// How many bytes of a line are written over spaces, at most.
    pub(crate) most: usize,
    ghost within: { len ≤ 96 },
    ghost fits: { at + most ≤ len },
}

impl Sheet {
    /// The cells of what is before a line, and after it if it has no byte; none if they are too long. A line takes the
    /// place of `gap` bytes at most.
    pub(crate) fn new(before: &[u8], after: &[u8], gap: usize) -> Option<Sheet>
        ensures { IfSome result (λ s. (s.most ≡ gap) × IsSheet before.now after.now s.cells s.at s.len) }
    {
        let at = before.len();
        if at > WIDTH {
            return None;
        }
        if after.len() > WIDTH - at {
            return None;
        }
        if gap > after.len() {
            return None;
        }
        let mut cells = [b' '; WIDTH];
        write_over(&mut cells, 0, before);
        write_over(&mut cells, at, after);
        Some(Sheet {
            cells,
            at,
            len: at + after.len(),
            most: gap,
        })
    }
}
