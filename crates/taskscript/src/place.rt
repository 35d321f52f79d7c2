//! Places of a machine file: its tables, their keys, and the lines of its bodies.
ghost use Rattle.std.specs.Prelude.{◌≡◌};
ghost use Rattle.taskscript.specs.Places.{array_key, key_text, limit};

/// An array of the top table.
#[derive(Clone, Copy, Debug, PartialEq, Eq)]
pub enum Array {
    Region,
    Library,
    Softint,
    Server,
    Task,
}

impl Array {
    /// All arrays, in the order in which they are judged.
    pub const ALL: [Array; 5] = [
        Array::Region,
        Array::Library,
        Array::Softint,
        Array::Server,
        Array::Task,
    ];

    /// Its key (project rule).
    pub fn key(self) -> &'static str
        ensures { result.now ≡ array_key self }
    {
        match self {
            Array::Region => "region",
            Array::Library => "library",
            Array::Softint => "softint",
            Array::Server => "server",
            Array::Task => "task",
        }
    }

    /// The greatest number of its items (project rule).
    pub fn limit(self) -> usize
        ensures { result ≡ limit self }
    {
        match self {
            Array::Region => 8,
            Array::Library | Array::Softint | Array::Server => 32,
            Array::Task => 64,
        }
    }
}

/// A key of a table that holds a value.
#[derive(Clone, Copy, Debug, PartialEq, Eq)]
pub enum Key {
    Quantum,
    TickMicros,
    Pool,
    Base,
    Size,
    Attrs,
    Pri,
    Name,
    Version,
    Source,
    Claim,
    Start,
    Code,
}

impl Key {
    /// The text of the key (project rule).
    pub fn text(self) -> &'static str
        ensures { result.now ≡ key_text self }
    {
        match self {
            Key::Quantum => "quantum",
            Key::TickMicros => "tick_micros",
            Key::Pool => "pool",
            Key::Base => "base",
            Key::Size => "size",
            Key::Attrs => "attrs",
            Key::Pri => "pri",
            Key::Name => "name",
            Key::Version => "version",
            Key::Source => "source",
            Key::Claim => "claim",
            Key::Start => "start",
            Key::Code => "code",
        }
    }
}

/// A table of a machine file.
#[derive(Clone, Copy, Debug, PartialEq, Eq)]
pub enum TablePlace {
    /// The top table.
    Top,
    /// The item of an array, by its number from 0.
    Item(Array, usize),
}

/// A place of the tree of a machine file.
#[derive(Clone, Copy, Debug, PartialEq, Eq)]
pub enum TreePlace {
    /// The first key of a table that the table may not have.
    UnknownKey(TablePlace),
    /// What a key of a table holds, or that it is absent.
    Key(TablePlace, Key),
    /// An array as a whole.
    Array(Array),
    /// The item of an array, by its number from 0, which is not a table.
    Item(Array, usize),
}

/// What has a body.
#[derive(Clone, Copy, Debug, PartialEq, Eq)]
pub enum Owner {
    Softint,
    Server,
    Task,
}

/// A line of a body.
#[derive(Clone, Copy, Debug, PartialEq, Eq)]
pub struct LinePlace {
    /// What has the body.
    pub owner: Owner,
    /// Its number among all that are of its kind, from 0.
    pub item: usize,
    /// The number of the line, from 0.
    pub line: usize,
}

/// A place of a machine file.
#[derive(Clone, Copy, Debug, PartialEq, Eq)]
pub enum Place {
    /// The file as a whole: it is not a TOML document, or memory was refused while it was read.
    File,
    /// A place of the tree.
    Tree(TreePlace),
    /// A line of a body.
    Line(LinePlace),
}
