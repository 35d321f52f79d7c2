//! What ends a run.

use crate::section::{Example, Section};

/// A section for each.
pub(crate) static ALERTS: [Section; 10] = [
    Section {
        name: "HANDLE",
        title: "a number or an address names nothing",
        text: "No live task has that number, or no live object of the wanted kind begins at that
address: it was never made, it is 0 because a call failed, or it was freed. So it
is with the reply port of a message or of a request.",
        shows: Some(Example {
            machine: "[[region]]
base = 4096
size = 65536

[[task]]
name = 'a'
code = [
  'q = FindPort \"box\"',
  'm = NewMsg 0 1',
  'PutMsg q m',
]
",
            events: Some(
                "run 10
",
            ),
        }),
        mended: Some(Example {
            machine: "[[region]]
base = 4096
size = 65536

[[task]]
name = 'a'
code = [
  'p = CreateMsgPort',
  'AddPort p \"box\" 0',
  'q = FindPort \"box\"',
  'm = NewMsg 0 1',
  'PutMsg q m',
]
",
            events: Some(
                "run 10
",
            ),
        }),
    },
    Section {
        name: "MASK",
        title: "a signal that a script may not name",
        text: "A mask has a bit for each signal: signal 12 is $1000. Scripts may name the
signals 12 to 31. FreeSignal takes a number from 16 to 31, or -1.",
        shows: Some(Example {
            machine: "[[task]]
name = 'a'
code = [
  'Wait 12',
]
",
            events: Some(
                "run 10
",
            ),
        }),
        mended: Some(Example {
            machine: "[[task]]
name = 'a'
code = [
  'Signal 1 $1000',
  'Wait $1000',
]
",
            events: Some(
                "run 10
",
            ),
        }),
    },
    Section {
        name: "VALUE",
        title: "a number is outside its range",
        text: "A priority is from -128 to 127, the command of a request is at most 65,535, and
AllocMem and AvailMem take some bits only.",
        shows: Some(Example {
            machine: "[[region]]
base = 4096
size = 65536

[[task]]
name = 'a'
code = [
  'x = AllocMem 16 8',
  'Print x',
]
",
            events: Some(
                "run 10
",
            ),
        }),
        mended: Some(Example {
            machine: "[[region]]
base = 4096
size = 65536

[[task]]
name = 'a'
code = [
  'x = AllocMem 16 1',
  'Print x',
]
",
            events: Some(
                "run 10
",
            ),
        }),
    },
    Section {
        name: "MEM",
        title: "FreeMem of what is not such a block",
        text: "FreeMem is given the address that AllocMem returned, and the size that it was
asked for.",
        shows: Some(Example {
            machine: "[[region]]
base = 4096
size = 65536

[[task]]
name = 'a'
code = [
  'x = AllocMem 16 1',
  'FreeMem x 24',
]
",
            events: Some(
                "run 10
",
            ),
        }),
        mended: Some(Example {
            machine: "[[region]]
base = 4096
size = 65536

[[task]]
name = 'a'
code = [
  'x = AllocMem 16 1',
  'FreeMem x 16',
]
",
            events: Some(
                "run 10
",
            ),
        }),
    },
    Section {
        name: "NEST",
        title: "Permit or Enable without its partner",
        text: "Each Permit ends one Forbid of the task, and each Enable one Disable. They nest
128 deep.",
        shows: Some(Example {
            machine: "[[task]]
name = 'a'
code = [
  'Permit',
]
",
            events: Some(
                "run 10
",
            ),
        }),
        mended: Some(Example {
            machine: "[[task]]
name = 'a'
code = [
  'Forbid',
  'Permit',
]
",
            events: Some(
                "run 10
",
            ),
        }),
    },
    Section {
        name: "LINK",
        title: "what is in a list where it must be in none, or the other way",
        text: "A node is in one list at most, and Remove wants it in one. A message is in one
port at most. AddPort wants a port that is not public, and RemPort one that is.
FreeList wants a list that is empty.",
        shows: Some(Example {
            machine: "[[region]]
base = 4096
size = 65536

[[task]]
name = 'a'
code = [
  'l = NewList',
  'n = NewNode 0 0',
  'AddTail l n',
  'AddTail l n',
]
",
            events: Some(
                "run 10
",
            ),
        }),
        mended: Some(Example {
            machine: "[[region]]
base = 4096
size = 65536

[[task]]
name = 'a'
code = [
  'l = NewList',
  'n = NewNode 0 0',
  'AddTail l n',
  'Remove n',
  'AddTail l n',
]
",
            events: Some(
                "run 10
",
            ),
        }),
    },
    Section {
        name: "PORT",
        title: "a port that is in use, or at which the task may not wait",
        text: "A port is deleted when it is empty and not public, and no request in progress
needs it. A task waits at a port of its own, and only if the port signals it.",
        shows: Some(Example {
            machine: "[[region]]
base = 4096
size = 65536

[[task]]
name = 'a'
code = [
  'p = CreateMsgPort',
  'AddPort p \"box\" 0',
  'DeleteMsgPort p',
]
",
            events: Some(
                "run 10
",
            ),
        }),
        mended: Some(Example {
            machine: "[[region]]
base = 4096
size = 65536

[[task]]
name = 'a'
code = [
  'p = CreateMsgPort',
  'AddPort p \"box\" 0',
  'RemPort p',
  'DeleteMsgPort p',
]
",
            events: Some(
                "run 10
",
            ),
        }),
    },
    Section {
        name: "SEM",
        title: "a semaphore with another owner than the call wants, or obtained too often",
        text: "Only the owner of a semaphore may release it, and one that is owned is not
freed. An owner that obtains it again has to release it as often, which is at
most 32,767 times: the call that would take one more is refused.",
        shows: Some(Example {
            machine: "[[region]]
base = 4096
size = 65536

[[task]]
name = 'a'
code = [
  's = NewSem',
  'ReleaseSemaphore s',
]
",
            events: Some(
                "run 10
",
            ),
        }),
        mended: Some(Example {
            machine: "[[region]]
base = 4096
size = 65536

[[task]]
name = 'a'
code = [
  's = NewSem',
  'ObtainSemaphore s',
  'ReleaseSemaphore s',
]
",
            events: Some(
                "run 10
",
            ),
        }),
    },
    Section {
        name: "LIB",
        title: "a library is closed that is not open",
        text: "Each CloseLibrary ends one OpenLibrary.",
        shows: Some(Example {
            machine: "[[region]]
base = 4096
size = 65536

[[library]]
name = 'l.library'
version = 1
size = 64

[[task]]
name = 'a'
code = [
  'b = OpenLibrary \"l.library\" 0',
  'CloseLibrary b',
  'CloseLibrary b',
]
",
            events: Some(
                "run 10
",
            ),
        }),
        mended: Some(Example {
            machine: "[[region]]
base = 4096
size = 65536

[[library]]
name = 'l.library'
version = 1
size = 64

[[task]]
name = 'a'
code = [
  'b = OpenLibrary \"l.library\" 0',
  'CloseLibrary b',
]
",
            events: Some(
                "run 10
",
            ),
        }),
    },
    Section {
        name: "IO",
        title: "a request that is in progress, was never begun, or is not open",
        text: "A request is opened by OpenDevice before it is begun. While it is in progress it
is not begun again, changed, closed or deleted; WaitIO waits for its end.",
        shows: Some(Example {
            machine: "[[region]]
base = 4096
size = 65536

[[task]]
name = 'a'
code = [
  'p = CreateMsgPort',
  'r = CreateIORequest p',
  'x = DoIO r',
  'Print x',
]
",
            events: Some(
                "run 10
",
            ),
        }),
        mended: Some(Example {
            machine: "[[region]]
base = 4096
size = 65536

[[task]]
name = 'a'
code = [
  'p = CreateMsgPort',
  'r = CreateIORequest p',
  'OpenDevice \"timer.device\" 0 r',
  'SetIO r 10 0 0',
  'x = DoIO r',
  'Print x',
]
",
            events: Some(
                "run 10
",
            ),
        }),
    },
];
