//! Machine files: what an accepted one holds. Files of text that are refused are whole runs.
use super::comparing::same;
use memlist::Region;
use script::{SignalWord, Source, Word};
use std::test::*;
use taskscript::{FileFault, read_machine};

/// A machine file with a part of each kind.
static FILE: &str = "version = 2\nquantum = 255\ntick_micros = 1000000\npool = 1024\n\
    region = [{ size = 8, base = 8192, pri = -1, attrs = 7 }, { base = 4096, size = 16 }]\n\
    [[library]]\nsize = 65536\nname = \"b\"\nversion = 37\n\
    [[softint]]\nname = \"low\"\npri = -32\ncode = []\n\
    [[server]]\nname = \"disk\"\nsource = \"EXTER\"\npri = -128\nclaim = true\ncode = ['Cause \"low\"']\n\
    [[task]]\nname = \"A.b_c-9\"\npri = -128\nstart = false\ncode = []\n\
    [[task]]\ncode = [\"Print 1\", \"Wait $1000\"]\nname = \"b\"";

static REGIONS: [Region; 2] = [
    Region {
        base: 8192,
        size: 8,
        attrs: 7,
        pri: -1,
    },
    Region {
        base: 4096,
        size: 16,
        attrs: 1,
        pri: 0,
    },
];

#[test]
fn a_fault_has_a_name(rt: HostRuntime) {
    let name = FileFault::NotInInterrupt.name();
    same(
        &rt,
        "a fault has a name",
        "its name",
        name,
        "NotInInterrupt",
    );
}

#[test]
fn an_accepted_file_gives_its_numbers_and_regions(rt: HostRuntime) {
    let case = "an accepted file";
    let machine = read_machine(rt.alloc(), FILE.as_bytes()).expect(&rt, case);
    let numbers = (
        machine.version(),
        machine.quantum(),
        machine.tick_micros(),
        machine.pool(),
    );
    same(&rt, case, "numbers", numbers, (2, 255, 1_000_000, 1024));
    same(&rt, case, "regions", machine.regions(), REGIONS.as_slice());
}

#[test]
fn an_accepted_file_gives_its_library_and_interrupts(rt: HostRuntime) {
    let case = "an accepted file";
    let machine = read_machine(rt.alloc(), FILE.as_bytes()).expect(&rt, case);
    let library = machine.libraries().get(0).expect(&rt, case);
    let known = (library.name.as_str(), library.version, library.size);
    same(&rt, case, "library", known, ("b", 37, 65536));
    let softint = machine.softints().get(0).expect(&rt, case);
    let server = machine.servers().get(0).expect(&rt, case);
    let names = (softint.name.as_str(), softint.pri, server.name.as_str());
    same(&rt, case, "names", names, ("low", -32, "disk"));
    let serves = (server.source, server.pri, server.claim);
    same(&rt, case, "server", serves, (Source::Exter, -128, true));
}

#[test]
fn an_accepted_file_gives_its_tasks(rt: HostRuntime) {
    let case = "an accepted file";
    let machine = read_machine(rt.alloc(), FILE.as_bytes()).expect(&rt, case);
    let task = machine.tasks().get(1).expect(&rt, case);
    let head = (task.name.as_str(), task.pri, task.start);
    same(&rt, case, "task", head, ("b", 0, true));
    let command = task.code.get(1).expect(&rt, case);
    let word = Word::Signals(SignalWord::Wait);
    same(&rt, case, "command", command.word, word);
}

#[test]
fn bytes_that_are_no_text_are_not_toml(rt: HostRuntime) {
    let found = read_machine(rt.alloc(), b"# \xff\n").err();
    same(
        &rt,
        "bytes that are no text",
        "$FF",
        found,
        Some(FileFault::NotToml),
    );
}
