//! Reading a text whole, up to a limit.
ghost use Rattle.std.specs.Prelude.{◌≡◌, ◌≤◌, ◌+◌, ◌-◌, IfErr, IfOk, IfSome, OnOk, vec_len};
ghost use Rattle.std.specs.{Io.KnownBytes.IsAtEnd, IoError.error_kind};
ghost use Rattle.execsim.specs.Reading.{Adds, GaveBeforeFault, read_fault_number, read_fault_of};

use std::alloc::Global;
use std::io;
use std::io::{ErrorKind, Read};
use thiserror::Error;

/// The length in bytes of the longest text that is read.
pub const FILE_LIMIT: usize = 4_194_304;

/// Why the bytes of a reader are not at hand.
#[derive(Clone, Copy, Debug, PartialEq, Eq, Error)]
pub enum ReadFault {
    /// A read answered an error.
    #[error("a read failed")]
    Failed = 1,
    /// There are more bytes than the limit allows.
    #[error("the text is too long")]
    TooLong = 2,
    /// Memory was refused.
    #[error("no memory")]
    OutOfMemory = 3,
}

impl ReadFault {
    /// The number of the fault, 1 to 3 (project rule).
    pub fn number(self) -> u8
        ensures { result ≡ read_fault_number self }
    {
        self as u8
    }
}

impl From<io::Error> for ReadFault {
    ghost use Rattle.execsim.specs.Reading.{read_fault_of};

    ghost from_gives = { λ error fault. fault ≡ read_fault_of (error_kind error) };

    fn from(error: io::Error) -> ReadFault {
        match error.kind() {
            ErrorKind::OutOfMemory => ReadFault::OutOfMemory,
            _ => ReadFault::Failed,
        }
    }
}

/// How many bytes one read is given room for.
const PIECE: usize = 8192;

/// Reads once into a piece, and keeps what came after the bytes so far: how many bytes came, none at the reader's end.
/// There is room for one byte past the limit, and no more.
fn read_piece<R: Read>(
    reader: &mut R,
    piece: &mut [u8; PIECE],
    bytes: &mut Vec<u8>,
) -> Result<usize, ReadFault>
    requires short { vec_len bytes.old ≤ 4194304 }
    ensures count { IfOk result (λ n. vec_len bytes.new ≡ vec_len bytes.old + n) }
    ensures within { vec_len bytes.new ≤ 4194305 }
    ensures kept { OnOk result (Adds (R.remaining reader.old) (R.remaining reader.new) bytes.old.items bytes.new.items) }
    ensures end { IfOk result (λ n. n ≡ 0 → IsAtEnd (R.remaining reader.new)) }
    ensures fault { IfErr result (λ fault. GaveBeforeFault (4194304 - vec_len bytes.old) fault (R.remaining reader.old) (R.remaining reader.new)) }
{
    let room = PIECE.min(FILE_LIMIT + 1 - bytes.len());
    let count = reader.read(&mut piece[..room])?;
    match bytes.extend_from_slice(&piece[..count]) {
        Ok(()) => Ok(count),
        Err(_) => Err(ReadFault::OutOfMemory),
    }
}

/// All bytes that a reader has left, if they are at most `FILE_LIMIT`. Not more than one byte past the limit is read,
/// in at most `FILE_LIMIT + 1` reads: each but the last gives a byte.
///
/// # Errors
///
/// `Failed` if a read answers an error, also one after which it could be made again, `TooLong` if one byte past the
/// limit has come, and `OutOfMemory` if memory is refused, to the bytes or to the reader.
pub fn read_limited<R: Read>(alloc: Global, reader: &mut R) -> Result<Vec<u8>, ReadFault>
    ensures within { IfOk result (λ bytes. vec_len bytes ≤ 4194304) }
    ensures whole { IfOk result (λ bytes. IfSome (R.remaining reader.old) (λ all. bytes.items ≡ all)) }
    ensures end { OnOk result (IsAtEnd (R.remaining reader.new)) }
    ensures fault { IfErr result (λ fault. GaveBeforeFault 4194304 fault (R.remaining reader.old) (R.remaining reader.new)) }
{
    let mut bytes = Vec::new(alloc);
    let mut piece = [0; PIECE];
    while bytes.len() <= FILE_LIMIT {
        if read_piece(reader, &mut piece, &mut bytes)? == 0 {
            return Ok(bytes);
        }
    }
    Err(ReadFault::TooLong)
}
