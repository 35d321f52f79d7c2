//! What is seen of a block and of the object that begins there.
use iorequest::request::Request;
use msgport::action::{PortAction, TaskId};
use msgport::message::Message;
use sigsem::semaphore::Sem;

/// What is seen of a block of memory.
#[derive(Clone, Copy, Debug)]
pub struct BlockView {
    /// Its size in bytes, a multiple of 8.
    pub size: u32,
    /// What begins there.
    pub object: ObjectView,
}

/// What is seen of what begins at a block. Nodes, messages and waiting tasks are read one after another.
#[derive(Clone, Copy, Debug)]
pub enum ObjectView {
    /// Nothing that Exec knows of: AllocMem gave the block.
    Plain,
    /// The header of a list (RKM Libraries, Exec Lists and Queues).
    List,
    /// A node, with its priority, -128 to 127.
    Node(i8),
    /// A message port.
    Port(PortView),
    /// A message, with its type, its word, and the address of its reply port or 0.
    Message(Message),
    /// A semaphore, with its owner or none, and how often the owner has to release it.
    Semaphore(Sem),
    /// A loaded library.
    Library(LibraryView),
    /// A timer request.
    Request(Request),
}

impl ObjectView {
    /// The kind of what begins at a block, in one word.
    ///
    /// Source: project rule.
    pub fn kind_name(&self) -> &'static str {
        match self {
            ObjectView::Plain => "memory",
            ObjectView::List => "list",
            ObjectView::Node(_) => "node",
            ObjectView::Port(_) => "port",
            ObjectView::Message(_) => "message",
            ObjectView::Semaphore(_) => "semaphore",
            ObjectView::Library(_) => "library",
            ObjectView::Request(_) => "request",
        }
    }
}

/// What is seen of a message port (RKM Libraries, Exec Messages and Ports).
#[derive(Clone, Copy, Debug)]
pub struct PortView {
    /// Its task.
    pub task: TaskId,
    /// The number of the signal, 0 to 31, by which it reports its task of a message.
    pub signal: u32,
    /// What it does when a message arrives.
    pub action: PortAction,
}

/// What is seen of a loaded library (RKM Libraries, Exec Libraries).
#[derive(Clone, Copy, Debug)]
pub struct LibraryView {
    /// Its number, from 0 in the order of the file.
    pub number: usize,
    /// How often it is open.
    pub count: u16,
    /// Whether it is to be expunged when it is closed for the last time (LIBF_DELEXP).
    pub is_delayed: bool,
}
