//! A std writer that is lent to code which knows it as a writer alone.
use exectrace::{PagedWrite, Text};
use std::io;
use std::io::Write;

/// A writer that is lent.
///
/// Code that is generic over writers promises of one only what it holds afterwards, and not that it is still the same
/// loan. So what this one reports begins with the name of its loan, a number that proofs alone see: who takes it back
/// knows whose bytes these are.
#[derive(Drop)]
pub struct Lent<'a, W> {
    /// The loan.
    pub out: &'a mut W,
}

impl<W: Write> Write for Lent<'_, W> {
    ghost use Rattle.execrun.specs.Lending.{named};

    ghost contents = { λ lent. named lent.out.ghost_name (W.contents lent.out.now) };

    #[inline(always)]
    fn write(&mut self, buf: &[u8]) -> io::Result<usize> {
        self.out.write(buf)
    }

    fn flush(&mut self) -> io::Result<()> {
        self.out.flush()
    }
}

impl<W: PagedWrite> PagedWrite for Lent<'_, W> {
    #[inline(always)]
    fn take_text<T: Text>(&mut self, text: &T) -> bool {
        self.out.take_text(text)
    }
}
