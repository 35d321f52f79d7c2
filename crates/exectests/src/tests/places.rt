//! Where a machine file is refused: a case for each kind of place.
use super::comparing::same;
use std::test::*;
use taskscript::Place::Tree;
use taskscript::{
    Array, FileFault, Key, LinePlace, Owner, Place, Refused, TablePlace, TreePlace, read_placed,
};

/// A file that is refused, and its fault with its place.
type Case = (&'static str, FileFault, Place);

static CASES: [Case; 12] = [
    ("a = ", FileFault::NotToml, Place::File),
    (
        "speed = 1",
        FileFault::UnknownKey,
        Tree(TreePlace::UnknownKey(TablePlace::Top)),
    ),
    (
        "pool = 0",
        FileFault::BadValue,
        Tree(TreePlace::Key(TablePlace::Top, Key::Pool)),
    ),
    (
        "task = 1",
        FileFault::BadValue,
        Tree(TreePlace::Array(Array::Task)),
    ),
    (
        "library = [1]",
        FileFault::BadValue,
        Tree(TreePlace::Item(Array::Library, 0)),
    ),
    (
        "region = [{ base = 4096, size = 8 }, { base = 4096, size = 8 }]",
        FileFault::BadRegions,
        Tree(TreePlace::Array(Array::Region)),
    ),
    (
        "[[task]]\nname = \"a\"\ncode = []\n[[task]]\nname = \"a\"\ncode = []",
        FileFault::NameTwice,
        Tree(TreePlace::Key(TablePlace::Item(Array::Task, 1), Key::Name)),
    ),
    (
        "[[task]]\nname = \"a\"\ncode = []\n[[server]]\nname = \"b\"\nsource = \"PORTS\"",
        FileFault::MissingKey,
        Tree(TreePlace::Key(TablePlace::Item(Array::Server, 0), Key::Code)),
    ),
    (
        "[[task]]\nname = \"a\"\ncode = [\"Print 1\"]\n[[task]]\nname = \"b\"\ncode = [\"Print 1\", \"Print\"]",
        FileFault::BadCommand,
        Place::Line(LinePlace {
            owner: Owner::Task,
            item: 1,
            line: 1,
        }),
    ),
    (
        "[[softint]]\nname = \"a\"\npri = 0\ncode = [\"here:\"]",
        FileFault::NotInInterrupt,
        Place::Line(LinePlace {
            owner: Owner::Softint,
            item: 0,
            line: 0,
        }),
    ),
    (
        "[[task]]\nname = \"a\"\ncode = [\"here:\", \"Print 1\", \"here:\"]",
        FileFault::BadLabel,
        Place::Line(LinePlace {
            owner: Owner::Task,
            item: 0,
            line: 2,
        }),
    ),
    (
        "[[task]]\nname = \"a\"\ncode = [\"here:\", \"Print 1\", \"Jump here\", \"Jump there\"]",
        FileFault::BadLabel,
        Place::Line(LinePlace {
            owner: Owner::Task,
            item: 0,
            line: 3,
        }),
    ),
];

#[test]
fn each_fault_has_its_place(rt: HostRuntime) -> Result<(), Fail> {
    for (text, fault, place) in &CASES {
        let refused = read_placed(rt.alloc(), text.as_bytes()).err();
        let wanted = Refused {
            fault: *fault,
            place: *place,
        };
        same(&rt, *text, "its fault", refused, Some(wanted));
    }
    Ok(())
}
