//! The public ports of a machine, kept as they are added and removed: the machine answers of a name only the first port
//! that has it.

ghost use Rattle.std.specs.Prelude.{◌≡◌, [], false};

use exectrace::{Name, Said, ShortArg, Witness};
use script::{PortWord, Word};
use std::alloc::Global;

/// A public port.
#[derive(Clone, Copy)]
struct PublicPort {
    address: u32,
    name: Name,
}

/// A listener that keeps which ports are public.
#[derive(Drop)]
pub struct PublicPorts {
    ports: Vec<PublicPort>,
    is_cut: bool,
}

/// The port that a call is about: its first argument.
fn port_in(arguments: &[ShortArg]) -> Option<u32> {
    match arguments.first() {
        Some(ShortArg::Value(address)) => Some(*address),
        _ => None,
    }
}

impl PublicPorts {
    /// No port is public.
    ///
    /// Source: project rule.
    pub fn new(alloc: Global) -> PublicPorts
        ensures none { result.ports.items ≡ [] }
        ensures whole { result.is_cut ≡ false }
    {
        PublicPorts {
            ports: Vec::new(alloc),
            is_cut: false,
        }
    }

    /// Whether memory was refused for a port.
    ///
    /// Source: project rule.
    pub fn is_cut(&self) -> bool
        ensures { result ≡ self.now.is_cut }
    {
        self.is_cut
    }

    /// The public name of the port at an address; none if it is not public.
    ///
    /// Source: project rule.
    pub fn name_of(&self, address: u32) -> Option<&str> {
        let port = self.ports.iter().find(|port| port.address == address)?;
        Some(port.name.as_str())
    }

    /// A port is public from now on.
    fn add(&mut self, address: u32, name: Name) {
        let done = self.ports.push(PublicPort { address, name });
        self.is_cut = self.is_cut || done.is_err();
    }

    /// A port is public no more.
    fn remove(&mut self, address: u32) {
        if let Some(place) = self.ports.iter().position(|port| port.address == address) {
            self.ports.remove(place);
        }
    }

    /// A call of that word was made.
    fn note(&mut self, word: Word, arguments: &[ShortArg], quoted: &Name) {
        let Some(address) = port_in(arguments) else {
            return;
        };
        match word {
            Word::Ports(PortWord::AddPort) => self.add(address, *quoted),
            Word::Ports(PortWord::RemPort) => self.remove(address),
            _ => {}
        }
    }
}

impl Witness for PublicPorts {
    ghost use Rattle.logforms.specs.Hearing.{hearing_all};

    ghost hearing = { hearing_all };

    ghost told = { λ _. tt };

    fn hear(&mut self, said: &Said<'_>) {
        if let Said::Call {
            by: _,
            word,
            arguments,
            quoted,
            ends: _,
        } = said
        {
            self.note(*word, arguments, quoted);
        }
    }

    fn is_good(&self) -> bool {
        true
    }
}
