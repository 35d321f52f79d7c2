//! The objects of a run that a picture names: semaphores, message ports and timer requests.
use crate::film::{Actor, Point};
use crate::lines::{CallLine, TraceLine, read_line};
use crate::page::Page;
use crate::page::Value::{Hex, Plain};
use crate::seen::Kind;
use script::{Command, PortWord, RequestWord, SemaphoreWord, Variable, Word};
use std::alloc::{AllocError, Global};
use taskscript::Listed;

/// An object that a call has made.
#[derive(Drop)]
pub(crate) struct Object {
    pub kind: Kind,
    pub address: u32,
    /// What it is called in a picture: its kind, and the variable that got its address, or its public name.
    pub label: String,
}

/// The objects that were made so far, in their order.
#[derive(Drop)]
pub(crate) struct Objects<'a> {
    alloc: Global,
    file: &'a Listed,
    list: Vec<Object>,
}

/// The kind of object that a word makes.
fn kind_made(word: Word) -> Option<Kind> {
    match word {
        Word::Semaphores(SemaphoreWord::NewSem) => Some(Kind::Semaphore),
        Word::Ports(PortWord::CreateMsgPort) => Some(Kind::Port),
        Word::Requests(RequestWord::CreateIORequest) => Some(Kind::Request),
        _ => None,
    }
}

/// The name of a kind.
pub(crate) fn kind_text(kind: Kind) -> &'static str {
    match kind {
        Kind::Semaphore => "semaphore",
        Kind::Port => "port",
        Kind::Request => "request",
    }
}

/// The command that a task has done.
pub(crate) fn command_at(file: &Listed, actor: Actor) -> Option<&Command> {
    file.machine.tasks().get(actor.task)?.code.get(actor.place)
}

impl<'a> Objects<'a> {
    /// No object.
    pub fn new(alloc: Global, file: &'a Listed) -> Objects<'a> {
        Objects {
            alloc,
            file,
            list: Vec::new(alloc),
        }
    }

    /// The objects.
    pub fn list(&self) -> &[Object] {
        &self.list
    }

    /// The name of a task; nothing past the last.
    pub fn task_name(&self, t: usize) -> &str {
        match self.file.machine.tasks().get(t) {
            Some(task) => task.name.as_str(),
            None => "",
        }
    }

    /// The place in the list of the object of a kind at an address.
    pub fn place_of(&self, kind: Kind, address: u32) -> Option<usize> {
        for (place, object) in self.list.iter().enumerate() {
            if object.kind == kind && object.address == address {
                return Some(place);
            }
        }
        None
    }

    /// Whether another object has a label.
    fn is_taken(&self, label: &str, kind: Kind, address: u32) -> bool {
        for object in self.list.iter() {
            let is_other = object.kind != kind || object.address != address;
            if is_other && object.label.as_str() == label {
                return true;
            }
        }
        false
    }

    /// Gives an object its label, with its address if another one has the same.
    fn name(&mut self, kind: Kind, address: u32, mut label: Page) -> Result<(), AllocError> {
        if self.is_taken(label.text()?, kind, address) {
            label.fill(" {}", &[Hex(address)]);
        }
        let label = label.into_text()?;
        match self.place_of(kind, address) {
            Some(place) => {
                if let Some(object) = self.list.get_mut(place) {
                    object.label = label;
                }
            }
            None => self.list.push(Object {
                kind,
                address,
                label,
            })?,
        }
        Ok(())
    }

    /// Writes what an object of a kind is called by the variable that got its address, if one did.
    fn write_variable(&self, kind: Kind, point: &Point, label: &mut Page) -> Option<()> {
        let actor = point.actor?;
        let listing = &self.file.listing;
        let kind = Plain(kind_text(kind));
        match command_at(self.file, actor)?.target? {
            Variable::Private(number) => {
                let name = listing.tasks().get(actor.task)?.private_name(number)?;
                let owner = Plain(self.task_name(actor.task));
                label.fill("{} {} of {}", &[kind, Plain(name.as_str()), owner]);
            }
            Variable::Shared(number) => {
                let name = listing.shared_name(number)?;
                label.fill("{} @{}", &[kind, Plain(name.as_str())]);
            }
        }
        Some(())
    }

    /// Keeps an object that a call has made.
    fn keep_made(&mut self, kind: Kind, address: u32, point: &Point) -> Result<(), AllocError> {
        let mut label = Page::new(self.alloc);
        if self.write_variable(kind, point, &mut label).is_none() {
            label.fill("{} {}", &[Plain(kind_text(kind)), Hex(address)]);
        }
        self.name(kind, address, label)
    }

    /// Keeps what a call says of objects.
    fn learn_call(&mut self, call: &CallLine<'_>, point: &Point) -> Result<(), AllocError> {
        if let (Some(kind), Some(address)) = (kind_made(call.word), call.answer) {
            if address != 0 {
                self.keep_made(kind, address, point)?;
            }
        }
        if let (Word::Ports(PortWord::AddPort), Some(port)) = (call.word, call.first) {
            let mut label = Page::new(self.alloc);
            label.fill("port {}", &[Plain(call.second)]);
            self.name(Kind::Port, port, label)?;
        }
        Ok(())
    }

    /// Keeps the objects that were made since the point before, and the names that ports were given.
    pub fn learn(&mut self, point: &Point, text: &str) -> Result<(), AllocError> {
        for line in text.lines() {
            if let TraceLine::Call(call) = read_line(line) {
                self.learn_call(&call, point)?;
            }
        }
        Ok(())
    }

    /// The label of an object; its address if it is not known.
    pub fn label(&self, kind: Kind, address: u32) -> Option<&str> {
        let object = self.list.get(self.place_of(kind, address)?)?;
        Some(object.label.as_str())
    }
}
