//! Where the commands of a machine file were written, and what its variables were named.
ghost use Rattle.std.specs.Prelude.{◌≡◌, option_map, slice_get};
ghost use Rattle.script.specs.Names.{texts};
ghost use Rattle.taskscript.specs.{Listings.BodyListingData, Listings.ListingData};

use crate::variable::VariableName;
use indexmap::IndexSet;
use script::MachineFile;
use std::marker::Model;

/// The lines of the commands of one body, and the names of its private variables.
#[derive(Drop)]
pub struct BodyListing {
    pub(crate) lines: Vec<u16>,
    pub(crate) private: IndexSet<VariableName>,
}

impl Model for BodyListing {
    ghost use Rattle.script.specs.Names.{texts};
    ghost use Rattle.taskscript.specs.Listings.{BodyListingData};

    ghost Value = { BodyListingData };

    ghost view = { λ b. record { lines = b.lines.items; private = texts b.private.keys } };
}

// A name by its number.
fn name_at(names: &IndexSet<VariableName>, number: u8) -> Option<VariableName>
    ensures { option_map (λ n. n.bytes) result ≡ slice_get (texts names.now.keys) number }
{
    match names.get_index(number as usize) {
        None => None,
        Some(name) => Some(*name),
    }
}

impl BodyListing {
    /// The line (from 0) of the body in which the command at a place (from 0) was written; none past the last command.
    ///
    /// Source: project rule.
    pub fn line_of(&self, place: usize) -> Option<u16>
        ensures { result ≡ slice_get self.now.lines place }
    {
        self.lines.get(place).copied()
    }

    /// The name of the private variable of a number, the `Private` of a `Variable`; none past the last one.
    ///
    /// Source: project rule.
    pub fn private_name(&self, number: u8) -> Option<VariableName>
        ensures { option_map (λ n. n.bytes) result ≡ slice_get self.now.private number }
    {
        name_at(&self.private, number)
    }
}

/// The lines of the commands of a machine file, and the names of its variables.
#[derive(Drop)]
pub struct Listing {
    pub(crate) softints: Vec<BodyListing>,
    pub(crate) servers: Vec<BodyListing>,
    pub(crate) tasks: Vec<BodyListing>,
    pub(crate) shared: IndexSet<VariableName>,
}

impl Model for Listing {
    ghost use Rattle.script.specs.Names.{texts};
    ghost use Rattle.taskscript.specs.Listings.{ListingData};

    ghost Value = { ListingData };

    ghost view = { λ l. record {
      softints = l.softints.items;
      servers = l.servers.items;
      tasks = l.tasks.items;
      shared = texts l.shared.keys;
    } };
}

impl Listing {
    /// The bodies of the software interrupts, in the order of the file.
    ///
    /// Source: project rule.
    pub fn softints(&self) -> &[BodyListing]
        ensures { result.now ≡ self.now.softints }
    {
        &self.softints
    }

    /// The bodies of the servers, in the order of the file.
    ///
    /// Source: project rule.
    pub fn servers(&self) -> &[BodyListing]
        ensures { result.now ≡ self.now.servers }
    {
        &self.servers
    }

    /// The bodies of the tasks, in the order of the file.
    ///
    /// Source: project rule.
    pub fn tasks(&self) -> &[BodyListing]
        ensures { result.now ≡ self.now.tasks }
    {
        &self.tasks
    }

    /// The name of the shared variable of a number, the `Shared` of a `Variable`, without its `@`; none past the last
    /// one.
    ///
    /// Source: project rule.
    pub fn shared_name(&self, number: u8) -> Option<VariableName>
        ensures { option_map (λ n. n.bytes) result ≡ slice_get self.now.shared number }
    {
        name_at(&self.shared, number)
    }
}

/// The machine of a file, with the lines of its commands and the names of its variables.
#[derive(Drop)]
pub struct Listed {
    /// The machine.
    pub machine: MachineFile,
    /// Its lines and names.
    pub listing: Listing,
}
