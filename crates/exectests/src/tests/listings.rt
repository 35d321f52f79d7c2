//! The lines of the commands of a machine file, and the names of its variables.
use super::comparing::same;
use std::process::Abort;
use std::test::*;
use taskscript::{BodyListing, VariableName, read_listed};

/// A machine file with a body of each kind.
static FILE: &[u8] = b"[[softint]]\nname = \"soft\"\npri = 0\ncode = [\"@count = Add @count 1\"]\n\
    [[server]]\nname = \"serve\"\nsource = \"PORTS\"\ncode = [\"Cause \\\"soft\\\"\", \"@seen = Set 1\"]\n\
    [[task]]\nname = \"plain\"\ncode = [\"start:\", \"x = Set @seen\", \"again:\", \"next:\", \"y = Add x 1\", \"Jump again\", \"end:\"]\n\
    [[task]]\nname = \"empty\"\ncode = []\n";

/// The body of a number, which is there.
fn body<'a>(rt: &impl Abort, bodies: &'a [BodyListing], number: usize) -> &'a BodyListing {
    bodies.get(number).expect(rt, "the body is listed")
}

/// The lines of the commands of a body are these, and it has no command after them.
fn has_lines(rt: &impl Abort, case: &str, body: &BodyListing, lines: &[u16]) {
    for (place, line) in lines.iter().enumerate() {
        same(rt, case, place, body.line_of(place), Some(*line));
    }
    same(rt, case, lines.len(), body.line_of(lines.len()), None);
}

/// A name is the one that is wanted.
fn is_named(rt: &impl Abort, place: &str, name: Option<VariableName>, wanted: &str) {
    let answer = match &name {
        None => "",
        Some(name) => name.as_str(),
    };
    same(rt, "variables have their names", place, answer, wanted);
}

#[test]
fn each_command_has_its_line(rt: HostRuntime) -> Result<(), Fail> {
    let listed = read_listed(rt.alloc(), FILE).expect(&rt, "the file is accepted");
    let listing = &listed.listing;
    same(
        &rt,
        "each task is listed",
        "tasks",
        listing.tasks().len(),
        2,
    );
    has_lines(
        &rt,
        "a software interrupt",
        body(&rt, listing.softints(), 0),
        &[0],
    );
    has_lines(&rt, "a server", body(&rt, listing.servers(), 0), &[0, 1]);
    has_lines(
        &rt,
        "a task with labels",
        body(&rt, listing.tasks(), 0),
        &[1, 4, 5],
    );
    has_lines(&rt, "an empty task", body(&rt, listing.tasks(), 1), &[]);
    Ok(())
}

#[test]
fn each_variable_has_its_name(rt: HostRuntime) -> Result<(), Fail> {
    let listed = read_listed(rt.alloc(), FILE).expect(&rt, "the file is accepted");
    let listing = &listed.listing;
    is_named(&rt, "shared 0", listing.shared_name(0), "count");
    is_named(&rt, "shared 1", listing.shared_name(1), "seen");
    is_named(&rt, "shared 2", listing.shared_name(2), "");
    let plain = body(&rt, listing.tasks(), 0);
    is_named(&rt, "private 0", plain.private_name(0), "x");
    is_named(&rt, "private 1", plain.private_name(1), "y");
    is_named(&rt, "private 2", plain.private_name(2), "");
    Ok(())
}
