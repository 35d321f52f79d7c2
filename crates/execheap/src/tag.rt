//! The kinds of objects that live at addresses, and the tag that is beside a block: what begins there.
ghost use Rattle.std.specs.Prelude.{◌≡◌, ◌<◌, slice_get};
ghost use Rattle.execheap.specs.Tags.{kind_code, kinds, library_in, number_in, size_of, tag_of, tagged};

/// A kind of object.
#[derive(Clone, Copy, PartialEq, Eq)]
pub enum Kind {
    /// The header of a list (RKM Libraries, Exec Lists and Queues).
    List,
    /// A node.
    Node,
    /// A message port (RKM Libraries, Exec Messages and Ports).
    Port,
    /// A message (RKM Libraries, Exec Messages and Ports).
    Message,
    /// A semaphore (RKM Libraries, Exec Semaphores).
    Semaphore,
    /// A timer request (RKM Devices, Introduction to Amiga System Devices).
    Request,
}

impl Kind {
    /// The number of the kind, by which its pool is in the table.
    pub fn code(self) -> usize
        ensures { result ≡ kind_code self }
    {
        match self {
            Kind::List => 0,
            Kind::Node => 1,
            Kind::Port => 2,
            Kind::Message => 3,
            Kind::Semaphore => 4,
            Kind::Request => 5,
        }
    }

    /// The kind of a number, if there is one.
    pub fn of_code(code: u32) -> Option<Kind>
        ensures { result ≡ slice_get kinds code }
    {
        match code {
            0 => Some(Kind::List),
            1 => Some(Kind::Node),
            2 => Some(Kind::Port),
            3 => Some(Kind::Message),
            4 => Some(Kind::Semaphore),
            5 => Some(Kind::Request),
            _ => None,
        }
    }

    /// The bytes of an object of the kind, by the include files exec/lists.h, exec/nodes.h, exec/ports.h,
    /// exec/semaphores.h and devices/timer.h; a message has its word too (project rule).
    pub fn size(self) -> u32
        ensures { result ≡ size_of self }
    {
        match self {
            Kind::List => 14,
            Kind::Node => 14,
            Kind::Port => 34,
            Kind::Message => 24,
            Kind::Semaphore => 46,
            Kind::Request => 40,
        }
    }
}

/// The tags from here on are those of libraries.
const LIBRARIES: u32 = 0x8000_0000;

/// What begins at a block.
#[derive(Clone, Copy)]
pub enum Tagged {
    /// Nothing that Exec knows of.
    Plain,
    /// The object of a kind and a number.
    Object(Kind, usize),
    /// The library of a number.
    Library(usize),
}

/// What a tag says.
pub fn read(tag: u32) -> Tagged
    ensures { result ≡ tagged tag }
{
    if LIBRARIES <= tag {
        return Tagged::Library((tag - LIBRARIES) as usize);
    }
    if tag == 0 {
        return Tagged::Plain;
    }
    let rest = tag - 1;
    match Kind::of_code(rest % 8) {
        Some(kind) => Tagged::Object(kind, (rest / 8) as usize),
        None => Tagged::Plain,
    }
}

/// The tag of the object of a kind and a number.
pub fn tag_of(kind: Kind, number: usize) -> u32
    requires { number < 1024 }
    ensures { result ≡ tag_of kind number }
{
    1 + kind.code() as u32 + 8 * number as u32
}

/// The number of the object, if it is one of that kind.
pub fn number_in(kind: Kind, tagged: Tagged) -> Option<usize>
    ensures { result ≡ number_in kind tagged }
{
    match tagged {
        Tagged::Object(other, number) if other == kind => Some(number),
        _ => None,
    }
}

/// The number of the library, if it is one.
pub fn library_in(tagged: Tagged) -> Option<usize>
    ensures { result ≡ library_in tagged }
{
    match tagged {
        Tagged::Library(number) => Some(number),
        _ => None,
    }
}
