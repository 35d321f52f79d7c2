//! A list space in vectors and one of linked cells: known sequences, and mixed calls to which each has to answer what
//! the other does. `Driver` tests at run time what a call of the space asks, so that any call may be tried.
ghost use Rattle.std.specs.Prelude.{◌≡◌, ◌≤◌, length};

use execlist::key::Name;
use execlist::link::LinkSpace;
use execlist::plain::PlainSpace;
use execlist::space::{HeaderId, ListSpace, NodeId};
use std::alloc::{AllocError, Global};
use std::process::Abort;
use std::test::Fail;

/// Where a node is put: by `add_head`, `add_tail`, `insert` before all or after a node, or `enqueue`.
#[derive(Clone, Copy)]
enum Place {
    Head,
    Tail,
    First,
    After(NodeId),
    ByPriority,
}

/// A call that changes a space.
#[derive(Clone, Copy)]
enum Change {
    SetKey(NodeId, i8, Option<&'static str>),
    Put(HeaderId, NodeId, Place),
    Remove(NodeId),
    RemHead(HeaderId),
    RemTail(HeaderId),
    Reset,
}

/// A call that reads a space.
#[derive(Clone, Copy)]
enum Look {
    Home(NodeId),
    Pri(NodeId),
    HasName(NodeId, &'static str),
    First(HeaderId),
    Last(HeaderId),
    Succ(NodeId),
    Pred(NodeId),
    FindName(HeaderId, &'static str),
    FindNameAfter(NodeId, &'static str),
}

/// What came of a call: its condition failed, it was done, or it answered a header, a node, a priority or whether it is
/// so.
#[derive(Clone, Copy, Debug, PartialEq, Eq)]
enum Answer {
    Refused,
    Done,
    Header(Option<HeaderId>),
    Node(Option<NodeId>),
    Priority(i8),
    Is(bool),
}

use Answer::*;
use Change::*;
use Look::*;
use Place::*;

/// A space whose conditions are tested.
#[derive(Drop)]
struct Driver<S: ListSpace> {
    space: S,
    headers: usize,
    nodes: usize,
    ghost headers_known: { headers ≡ length (S.sequences space) },
    ghost nodes_known: { nodes ≡ length (S.homes space) },
}

impl<S: ListSpace> Driver<S> {
    /// A space of that many headers and nodes.
    fn new(alloc: Global, headers: usize, nodes: usize) -> Result<Self, AllocError>
        requires few_headers { headers ≤ 4096 }
        requires few_nodes { nodes ≤ 4096 }
    {
        let space = S::new(alloc, headers, nodes)?;
        Ok(Driver {
            space,
            headers,
            nodes,
        })
    }

    /// Puts an unlinked node.
    fn put(&mut self, h: HeaderId, n: NodeId, place: Place) -> Answer {
        if h >= self.headers || n >= self.nodes || self.space.home(n).is_some() {
            return Refused;
        }
        match place {
            Head => self.space.add_head(h, n),
            Tail => self.space.add_tail(h, n),
            Place::First => self.space.insert(h, n, None),
            After(pred) if pred < self.nodes && self.space.home(pred) == Some(h) => {
                self.space.insert(h, n, Some(pred));
            }
            After(_) => return Refused,
            ByPriority => self.space.enqueue(h, n),
        }
        Done
    }

    /// Makes a call that changes the space.
    fn change(&mut self, call: Change) -> Answer {
        match call {
            SetKey(n, pri, text) => {
                if n >= self.nodes || self.space.home(n).is_some() {
                    return Refused;
                }
                let name = match text {
                    None => None,
                    Some(text) => Name::from(text).ok(),
                };
                self.space.set_key(n, pri, name);
                Done
            }
            Put(h, n, place) => self.put(h, n, place),
            Remove(n) => {
                if n >= self.nodes || self.space.home(n).is_none() {
                    return Refused;
                }
                self.space.remove(n);
                Done
            }
            RemHead(h) if h < self.headers => Node(self.space.rem_head(h)),
            RemTail(h) if h < self.headers => Node(self.space.rem_tail(h)),
            Reset => {
                self.space.reset();
                Done
            }
            _ => Refused,
        }
    }

    /// Makes a call that reads the space at a node.
    fn look_at(&self, n: NodeId, call: Look) -> Answer {
        if n >= self.nodes {
            return Refused;
        }
        let home = self.space.home(n);
        match (call, home) {
            (Home(_), _) => Header(home),
            (Pri(_), _) => Priority(self.space.pri(n)),
            (HasName(_, name), _) => Is(self.space.has_name(n, name)),
            (Succ(_), Some(_)) => Node(self.space.succ(n)),
            (Pred(_), Some(_)) => Node(self.space.pred(n)),
            (FindNameAfter(_, name), Some(h)) => Node(self.space.find_name(h, Some(n), name)),
            _ => Refused,
        }
    }

    /// Makes a call that reads the space.
    fn look(&self, call: Look) -> Answer {
        match call {
            Look::First(h) if h < self.headers => Node(self.space.first(h)),
            Last(h) if h < self.headers => Node(self.space.last(h)),
            FindName(h, name) if h < self.headers => Node(self.space.find_name(h, None, name)),
            Home(n) | Pri(n) | HasName(n, _) | Succ(n) | Pred(n) | FindNameAfter(n, _) => {
                self.look_at(n, call)
            }
            _ => Refused,
        }
    }
}

/// A call after the step of that number, counted from 0, has the answer that is wanted, at a node or a header of that
/// number.
fn same(rt: &impl Abort, number: usize, place: usize, answer: Answer, wanted: Answer) {
    assert_eq!(rt; answer, wanted, "in step {number}, at {place}");
}

/// Compares the whole of two spaces of two headers and eight nodes, also at a header and a node that are not there.
fn compare(rt: &impl Abort, number: usize, linked: &Driver<LinkSpace>, plain: &Driver<PlainSpace>) {
    for n in 0..9 {
        for call in [
            Home(n),
            Pri(n),
            Succ(n),
            Pred(n),
            HasName(n, "x"),
            HasName(n, "y"),
            HasName(n, "z"),
            FindNameAfter(n, "x"),
            FindNameAfter(n, "y"),
            FindNameAfter(n, "z"),
        ] {
            same(rt, number, n, linked.look(call), plain.look(call));
        }
    }
    for h in 0..3 {
        for call in [
            Look::First(h),
            Last(h),
            FindName(h, "x"),
            FindName(h, "y"),
            FindName(h, "z"),
        ] {
            same(rt, number, h, linked.look(call), plain.look(call));
        }
    }
}

/// The call that a number represents, over two headers and eight nodes and one of each that is not there.
fn call_of(x: u32) -> Change {
    let n = (x / 16 % 9) as usize;
    let p = (x / 256 % 9) as usize;
    let h = (x / 4096 % 3) as usize;
    let pri = [0i8, 5, -128, 127][(x / 32768 % 4) as usize];
    let name = ["x", "y", "z", "x"][(x / 262144 % 4) as usize];
    match x % 16 {
        0 => SetKey(n, pri, Some(name)),
        1 => SetKey(n, pri, None),
        2 => Put(h, n, Head),
        3 => Put(h, n, Tail),
        4 => Put(h, n, Place::First),
        5..=7 => Put(h, n, After(p)),
        8..=10 => Put(h, n, ByPriority),
        11 => RemHead(h),
        12 => RemTail(h),
        _ => Remove(n),
    }
}

/// A thousand calls of both spaces, each hundredth of which is a reset; the spaces are compared after each.
#[test]
fn mixed_calls_agree(rt: HostRuntime) -> Result<(), Fail> {
    let mut linked: Driver<LinkSpace> = Driver::new(rt.alloc(), 2, 8)?;
    let mut plain: Driver<PlainSpace> = Driver::new(rt.alloc(), 2, 8)?;
    let mut x: u32 = 1;
    for number in 0..1000 {
        x = x.wrapping_mul(1664525).wrapping_add(1013904223);
        let call = if number % 100 == 99 {
            Reset
        } else {
            call_of(x / 512)
        };
        same(&rt, number, 0, linked.change(call), plain.change(call));
        compare(&rt, number, &linked, &plain);
    }
    Ok(())
}

/// A call of a space of two headers and eight nodes, and what it must answer.
enum Step {
    Does(Change, Answer),
    Sees(Look, Answer),
}

use Step::*;

/// Nodes 0 to 5 get keys and are enqueued in header 0: a node goes after its equals, and a search goes on after a node.
/// Then the space is reset, and has no node in a header, no priority and no name.
static STEPS: [Step; 36] = [
    Does(SetKey(0, 0, Some("x")), Done),
    Does(Put(0, 0, ByPriority), Done),
    Does(SetKey(1, 5, Some("y")), Done),
    Does(Put(0, 1, ByPriority), Done),
    Does(SetKey(2, 0, Some("x")), Done),
    Does(Put(0, 2, ByPriority), Done),
    Does(SetKey(3, -128, None), Done),
    Does(Put(0, 3, ByPriority), Done),
    Does(SetKey(4, 127, Some("z")), Done),
    Does(Put(0, 4, ByPriority), Done),
    Does(SetKey(5, 5, Some("y")), Done),
    Does(Put(0, 5, ByPriority), Done),
    Sees(Look::First(0), Node(Some(4))),
    Sees(Succ(4), Node(Some(1))),
    Sees(Succ(1), Node(Some(5))),
    Sees(Succ(5), Node(Some(0))),
    Sees(Succ(0), Node(Some(2))),
    Sees(Succ(2), Node(Some(3))),
    Sees(Succ(3), Node(None)),
    Sees(FindName(0, "x"), Node(Some(0))),
    Sees(FindNameAfter(0, "x"), Node(Some(2))),
    Sees(FindNameAfter(2, "x"), Node(None)),
    Sees(FindName(0, "X"), Node(None)),
    Sees(FindName(1, "x"), Node(None)),
    Does(Reset, Done),
    Sees(Look::First(0), Node(None)),
    Sees(Home(4), Header(None)),
    Sees(Pri(4), Priority(0)),
    Sees(HasName(4, "z"), Is(false)),
    Does(Put(1, 5, Tail), Done),
    Does(Put(1, 0, ByPriority), Done),
    Sees(Look::First(1), Node(Some(5))),
    Sees(Succ(5), Node(Some(0))),
    Sees(Last(1), Node(Some(0))),
    Sees(Home(0), Header(Some(1))),
    Sees(FindName(1, "x"), Node(None)),
];

/// Takes the steps.
fn take_all<S: ListSpace>(rt: &impl Abort, alloc: Global) -> Result<(), Fail> {
    let mut d: Driver<S> = Driver::new(alloc, 2, 8)?;
    for (number, step) in STEPS.iter().enumerate() {
        match step {
            Does(call, wanted) => same(rt, number, 0, d.change(*call), *wanted),
            Sees(call, wanted) => same(rt, number, 0, d.look(*call), *wanted),
        }
    }
    Ok(())
}

#[test]
fn nodes_are_in_order_until_the_space_is_reset(rt: HostRuntime) -> Result<(), Fail> {
    take_all::<PlainSpace>(&rt, rt.alloc())?;
    take_all::<LinkSpace>(&rt, rt.alloc())
}
