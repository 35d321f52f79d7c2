//! Readers that give as much as is read, more, or fail on the way.
use execsim::{FILE_LIMIT, ReadFault, read_limited};
use std::alloc::Global;
use std::io;
use std::io::{ErrorKind, Read};
use std::process::Abort;
use std::test::*;

/// How a reader ends, once it has given all its bytes.
#[derive(Clone, Copy, Debug)]
enum Ending {
    /// There are no more bytes.
    End,
    /// Each read answers an error of this kind.
    Fails(ErrorKind),
}

/// A reader of some bytes, which gives at most that many of them at once, and counts its reads.
#[derive(Drop)]
struct Slow<'a> {
    left: &'a [u8],
    piece: usize,
    ending: Ending,
    reads: usize,
}

impl Read for Slow<'_> {
    fn read(&mut self, buf: &mut [u8]) -> io::Result<usize> {
        self.reads = self.reads.saturating_add(1);
        if self.left.is_empty() {
            if let Ending::Fails(kind) = self.ending {
                return Err(io::Error::from(kind));
            }
        }
        let most = self.piece.min(buf.len());
        self.left.read(&mut buf[..most])
    }
}

/// How many bytes a reader has, how many it gives at once, how it ends, what reading it answers, and how many bytes are
/// left in it then.
type Case = (usize, usize, Ending, Result<(), ReadFault>, usize);

const ALL: usize = usize::MAX;

const OTHER: Ending = Ending::Fails(ErrorKind::Other);

const INTERRUPTED: Ending = Ending::Fails(ErrorKind::Interrupted);

const NO_MEMORY: Ending = Ending::Fails(ErrorKind::OutOfMemory);

static CASES: [Case; 15] = [
    (0, ALL, Ending::End, Ok(()), 0),
    (0, ALL, OTHER, Err(ReadFault::Failed), 0),
    (3, ALL, Ending::End, Ok(()), 0),
    (3, 1, Ending::End, Ok(()), 0),
    (3, ALL, OTHER, Err(ReadFault::Failed), 0),
    (3, 1, OTHER, Err(ReadFault::Failed), 0),
    (3, ALL, INTERRUPTED, Err(ReadFault::Failed), 0),
    (3, ALL, NO_MEMORY, Err(ReadFault::OutOfMemory), 0),
    (100_000, 7, Ending::End, Ok(()), 0),
    (FILE_LIMIT, ALL, Ending::End, Ok(()), 0),
    (FILE_LIMIT, 1, OTHER, Err(ReadFault::Failed), 0),
    (FILE_LIMIT + 1, ALL, Ending::End, Err(ReadFault::TooLong), 0),
    (FILE_LIMIT + 1, ALL, OTHER, Err(ReadFault::TooLong), 0),
    (FILE_LIMIT + 2, ALL, Ending::End, Err(ReadFault::TooLong), 1),
    (
        FILE_LIMIT + 50_000,
        4096,
        OTHER,
        Err(ReadFault::TooLong),
        49_999,
    ),
];

/// Reads the reader of a case, and compares the answer, the bytes, what is left in it, and how often it was read.
fn expect_read(rt: &impl Abort, alloc: Global, text: &[u8], case: &Case) {
    let (length, piece, ending, answer, left) = *case;
    let given = text.get(..length).unwrap_or_default();
    assert_eq!(rt; given.len(), length);
    let mut reader = Slow {
        left: given,
        piece,
        ending,
        reads: 0,
    };
    let read = read_limited(alloc, &mut reader);
    if let Ok(bytes) = &read {
        assert!(rt; bytes.as_slice() == given, "{length} bytes, {ending:?}");
    }
    assert_eq!(rt; read.map(|_| ()), answer, "{length} bytes, {ending:?}");
    assert_eq!(rt; reader.left.len(), left, "{length} bytes, {ending:?}");
    // One byte a read takes as many as there may be.
    assert!(rt;
        reader.reads <= FILE_LIMIT + 1,
        "{length} bytes, {ending:?}"
    );
}

#[test]
fn a_reader_is_read_to_its_end_up_to_the_limit(rt: HostRuntime) -> Result<(), Fail> {
    let mut block = Vec::new(rt.alloc());
    for byte in 0..251u8 {
        block.push(byte)?;
    }
    let mut text = Vec::new(rt.alloc());
    for _ in 0..17_000 {
        text.extend_from_slice(&block)?;
    }
    for case in &CASES {
        expect_read(&rt, rt.alloc(), &text, case);
    }
    Ok(())
}

#[test]
fn a_fault_of_reading_has_its_number(rt: HostRuntime) {
    let numbers = [
        (ReadFault::Failed, 1),
        (ReadFault::TooLong, 2),
        (ReadFault::OutOfMemory, 3),
    ];
    for (fault, number) in numbers {
        assert_eq!(rt; fault.number(), number);
    }
}
