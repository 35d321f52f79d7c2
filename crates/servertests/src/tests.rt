//! Tests of the language server and of its protocol.
use execadvice::Diagnostic;
use languageprotocol::{
    Asked, Found, Input, Next, NotFramed, Noted, Waited, asked_by, characters_before, frame_of,
    front_of, noted_by, units_before,
};
use languageserver::{Outside, Served, Unserved, serve};
use std::alloc::{AllocError, Global};
use std::test::*;

/// Nothing outside.
struct Nothing;

impl Outside for Nothing {
    fn found_in_run(
        &self,
        alloc: Global,
        _machine: &[u8],
        _events: &[u8],
    ) -> Result<Vec<Diagnostic>, AllocError> {
        Ok(Vec::new(alloc))
    }

    fn text_at(&self, _alloc: Global, _path: &str) -> Result<Option<Vec<u8>>, AllocError> {
        Ok(None)
    }
}

#[test]
fn a_frame_that_is_written_is_read_back(rt: HostRuntime) {
    let frame = frame_of(rt.alloc(), b"{\"id\":1}").expect(&rt, "memory is there");
    assert_eq!(&rt;
        frame.as_slice(),
        b"Content-Length: 8\r\n\r\n{\"id\":1}".as_slice()
    );
    assert_eq!(&rt; front_of(&frame), Ok(Some(Found { start: 21, end: 29 })));
}

#[test]
fn a_frame_without_a_length_is_none(rt: HostRuntime) {
    assert_eq!(&rt; front_of(b"A: 1\r\n\r\n{}"), Err(NotFramed));
}

#[test]
fn half_a_frame_is_waited_for(rt: HostRuntime) {
    assert_eq!(&rt; front_of(b"content-length: 9\r\n\r\n{}"), Ok(None));
}

#[test]
fn messages_come_one_after_another(rt: HostRuntime) {
    let mut input = Input::new(
        rt.alloc(),
        b"Content-Length: 1\r\n\r\n1Content-Length: 2\r\n\r\n22".as_slice(),
    );
    assert!(&rt; input.wait() == Ok(Waited::More));
    let first = input.take().expect(&rt, "a message is there");
    assert!(&rt; matches!(&first, Next::Message(bytes) if bytes.len() == 1));
    let second = input.take().expect(&rt, "a message is there");
    assert!(&rt; matches!(&second, Next::Message(bytes) if bytes.len() == 2));
}

#[test]
fn a_place_counts_units(rt: HostRuntime) {
    // A letter of one unit, a clef of two, and a letter of one.
    let line = "\u{e9}\u{1d11e}x";
    assert_eq!(&rt; units_before(line, 2), 3);
    assert_eq!(&rt; characters_before(line, 3), 2);
    assert_eq!(&rt; characters_before(line, 2), 1);
}

#[test]
fn methods_have_meanings(rt: HostRuntime) {
    assert!(&rt; asked_by("textDocument/hover") == Some(Asked::Hover));
    assert!(&rt; noted_by("exit") == Some(Noted::Exit));
}

#[test]
fn an_editor_ends_the_server(rt: HostRuntime) {
    let frame = frame_of(rt.alloc(), b"{\"method\":\"exit\"}").expect(&rt, "memory is there");
    let mut out = Vec::new(rt.alloc());
    let served = serve(&Nothing, rt.alloc(), frame.as_slice(), &mut out);
    assert_eq!(&rt; served, Ok(Served::Aborted));
}

#[test]
fn what_is_not_in_frames_is_not_served(rt: HostRuntime) {
    let mut out = Vec::new(rt.alloc());
    let served = serve(&Nothing, rt.alloc(), b"A: 1\r\n\r\n".as_slice(), &mut out);
    assert_eq!(&rt; served, Err(Unserved::NotFramed));
}
