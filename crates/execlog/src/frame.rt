//! What a row has around the line of a command, prepared once for all its rows: the column of its line of the file, and
//! after the line of the trace the text of the command and the line feed.
ghost use Rattle.std.specs.Prelude.{◌≡◌, IfOk, IfSome};
ghost use Rattle.std.proofs.Props.{props};
ghost use Rattle.execlog.specs.Rows.{IsFrame, IsSheet};

use crate::rows::{push_line_column, push_source};
use crate::sheet::Sheet;
use std::alloc::{AllocError, Global};

/// How many of the spaces before the text of a command a line of the trace takes the place of, at most.
const GAP: usize = 43;

/// What a row has around the line of a command.
#[derive(Drop)]
pub(crate) struct Frame {
    /// The column of its line.
    pub(crate) before: Vec<u8>,
    /// What is after a line of the trace that has no byte.
    pub(crate) after: Vec<u8>,
    /// How many bytes of that a longer line takes the place of, at most.
    pub(crate) gap: usize,
    /// The same to be copied at once, if it is not too long.
    pub(crate) sheet: Option<Sheet>,
    ghost sheeted: { IfSome sheet (λ s. (s.most ≡ gap) × IsSheet before.items after.items s.cells s.at s.len) } by { Prim.hlevel props },
}

impl Frame {
    /// What a row has around the line of a command in that line of the file, with that text.
    ///
    /// # Errors
    ///
    /// When memory is refused.
    pub(crate) fn new(alloc: Global, line: Option<u32>, source: &[u8]) -> Result<Frame, AllocError>
        ensures { IfOk result (λ f. IsFrame line source.now f.before.items f.after.items f.gap) }
    {
        let mut before = Vec::new(alloc);
        push_line_column(&mut before, line)?;
        let mut after = Vec::new(alloc);
        push_source(&mut after, 0, source)?;
        after.push(b'\n')?;
        let gap = if source.is_empty() { 0 } else { GAP };
        let sheet = Sheet::new(&before, &after, gap);
        Ok(Frame {
            before,
            after,
            gap,
            sheet,
        })
    }
}
