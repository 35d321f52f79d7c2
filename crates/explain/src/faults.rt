//! Why a text is refused.

use crate::section::{Example, Section};

/// A section for each.
pub(crate) static FAULTS: [Section; 13] = [
    Section {
        name: "NotToml",
        title: "the machine file is not a TOML document",
        text: "The text is not valid UTF-8, or TOML does not take it. The place is where the
reader stops; the mistake is often just before it: a quote or a bracket that is
not closed, a text without quotes, or a comment that begins with // or ;.",
        shows: Some(Example {
            machine: "[[task]]
name = a
code = ['Print 1']
",
            events: None,
        }),
        mended: Some(Example {
            machine: "[[task]]
name = 'a'
code = ['Print 1']
",
            events: None,
        }),
    },
    Section {
        name: "UnknownKey",
        title: "a table has a key that it may not have",
        text: "Each table has its own keys: `quantum` belongs to the top of the file, `pri` to a
task. A key is written as it is listed, in small letters.",
        shows: Some(Example {
            machine: "[[task]]
name = 'a'
priority = 5
code = ['Print 1']
",
            events: None,
        }),
        mended: Some(Example {
            machine: "[[task]]
name = 'a'
pri = 5
code = ['Print 1']
",
            events: None,
        }),
    },
    Section {
        name: "MissingKey",
        title: "a table lacks a key that it must have",
        text: "A task has a name and code; a region has a base and a size. The other keys have
values of their own if they are left out.",
        shows: Some(Example {
            machine: "[[task]]
code = ['Print 1']
",
            events: None,
        }),
        mended: Some(Example {
            machine: "[[task]]
name = 'a'
code = ['Print 1']
",
            events: None,
        }),
    },
    Section {
        name: "BadValue",
        title: "a value is of another kind, or out of its range",
        text: "A number where a text is wanted, a text where a number is, or a number that is
too small or too large.",
        shows: Some(Example {
            machine: "[[task]]
name = 'a'
pri = 128
code = ['Print 1']
",
            events: None,
        }),
        mended: Some(Example {
            machine: "[[task]]
name = 'a'
pri = 127
code = ['Print 1']
",
            events: None,
        }),
    },
    Section {
        name: "NameTwice",
        title: "a name was used before",
        text: "Tasks, servers and software interrupts are told apart by their names, so no two
of them have the same. So it is with libraries among themselves.",
        shows: Some(Example {
            machine: "[[task]]
name = 'a'
code = [
  'Print 1',
]

[[task]]
name = 'a'
code = [
  'Print 2',
]
",
            events: None,
        }),
        mended: Some(Example {
            machine: "[[task]]
name = 'a'
code = [
  'Print 1',
]

[[task]]
name = 'b'
code = [
  'Print 2',
]
",
            events: None,
        }),
    },
    Section {
        name: "BadRegions",
        title: "the regions of memory do not fit",
        text: "The base and the size of a region are multiples of 8, the base is 4096 at least,
and no two regions overlap.",
        shows: Some(Example {
            machine: "[[region]]
base = 4096
size = 12

[[task]]
name = 'a'
code = [
  'Print 1',
]
",
            events: None,
        }),
        mended: Some(Example {
            machine: "[[region]]
base = 4096
size = 16

[[task]]
name = 'a'
code = [
  'Print 1',
]
",
            events: None,
        }),
    },
    Section {
        name: "BadCommand",
        title: "a line is neither a label nor a command",
        text: "A line has one word with its arguments, and one space between any two parts. If
the word returns something, a variable and = may be before it: `x = Add 1 2`.
Words are written with capital and small letters as they are listed.",
        shows: Some(Example {
            machine: "[[task]]
name = 'a'
code = [
  'Pritn 1',
]
",
            events: None,
        }),
        mended: Some(Example {
            machine: "[[task]]
name = 'a'
code = [
  'Print 1',
]
",
            events: None,
        }),
    },
    Section {
        name: "BadLabel",
        title: "a label is twice in a body, or a jump names none",
        text: "A jump goes to a label of its own body. The label is a line of its own with a
colon; the jump names it without one.",
        shows: Some(Example {
            machine: "[[task]]
name = 'a'
code = [
  'loop:',
  'Jump lop',
]
",
            events: None,
        }),
        mended: Some(Example {
            machine: "[[task]]
name = 'a'
code = [
  'loop:',
  'Jump loop',
]
",
            events: None,
        }),
    },
    Section {
        name: "NotInInterrupt",
        title: "a line that interrupts may not have",
        text: "The code of a server or of a software interrupt runs straight to its end: it has
no label and no jump, it cannot wait, and it has shared variables alone, which
begin with @.",
        shows: Some(Example {
            machine: "[[server]]
name = 's'
source = 'VERTB'
code = ['n = Add n 1']
",
            events: None,
        }),
        mended: Some(Example {
            machine: "[[server]]
name = 's'
source = 'VERTB'
code = ['@n = Add @n 1']
",
            events: None,
        }),
    },
    Section {
        name: "TooMany",
        title: "there is more than the limits allow",
        text: "A file has at most 64 tasks, a body 1,024 lines and 32 variables of its own. An
event text has at most 1,000,000 steps and as many ticks, and 100,000 events.",
        shows: Some(Example {
            machine: "[[task]]
name = 'a'
code = [
  'Print 1',
]
",
            events: Some(
                "run 1000000
run 1
",
            ),
        }),
        mended: Some(Example {
            machine: "[[task]]
name = 'a'
code = [
  'Print 1',
]
",
            events: Some(
                "run 1000000
",
            ),
        }),
    },
    Section {
        name: "BadLine",
        title: "a line of the event text is not an event",
        text: "A line is `run N`, `tick N` or `irq S`, where N is a number from 1 to 1000000
and S is PORTS or EXTER. A comment begins with # and has a line of its own.",
        shows: Some(Example {
            machine: "[[task]]
name = 'a'
code = [
  'Print 1',
]
",
            events: Some(
                "runn 10
",
            ),
        }),
        mended: Some(Example {
            machine: "[[task]]
name = 'a'
code = [
  'Print 1',
]
",
            events: Some(
                "run 10
",
            ),
        }),
    },
    Section {
        name: "TooLong",
        title: "a text is longer than the programs read",
        text: "A machine file and an event text have at most 4,194,304 bytes. What a program
makes may be shorter in other words: `run 1000` is a thousand lines `run 1`.",
        shows: None,
        mended: None,
    },
    Section {
        name: "OutOfMemory",
        title: "memory was refused",
        text: "The system gave no more memory while a text was read, so nothing is said of the
text. Nothing is wrong with it: end other programs, or raise the limit that is
set for this one (ulimit -v), and begin again.",
        shows: None,
        mended: None,
    },
];
