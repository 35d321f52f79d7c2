//! Why a machine file was refused, and where.
ghost use Rattle.std.specs.Prelude.{◌≡◌};
ghost use Rattle.taskscript.specs.Places.{array_at, item_at, key_at, line_at, refused, unknown_key_at};
ghost use Rattle.taskscript.specs.declared.fault.FileFault.TheVariants as file_fault;
ghost use Rattle.taskscript.specs.declared.place.Place.TheVariants as a_place;

use crate::fault::FileFault;
use crate::place::{Array, Key, LinePlace, Owner, Place, TablePlace, TreePlace};
use std::alloc::{AllocError, AllocFailed};

/// The first fault of a machine file, with its place.
#[derive(Clone, Copy, Debug, PartialEq, Eq)]
pub struct Refused {
    pub fault: FileFault,
    pub place: Place,
}

impl From<AllocError> for Refused {
    ghost from_gives = { λ _ e. e ≡ refused a_place.File file_fault.OutOfMemory };

    fn from(_error: AllocError) -> Refused {
        Refused {
            fault: FileFault::OutOfMemory,
            place: Place::File,
        }
    }
}

impl<T: Drop> From<AllocFailed<T>> for Refused {
    ghost from_gives = { λ _ e. e ≡ refused a_place.File file_fault.OutOfMemory };

    fn from(_error: AllocFailed<T>) -> Refused {
        Refused {
            fault: FileFault::OutOfMemory,
            place: Place::File,
        }
    }
}

/// The fault of the file as a whole.
pub fn at_file(fault: FileFault) -> Refused
    ensures { result ≡ refused a_place.File fault }
{
    Refused {
        fault,
        place: Place::File,
    }
}

/// The fault of a key of a table.
pub fn at_key(of: TablePlace, key: Key, fault: FileFault) -> Refused
    ensures { result ≡ refused (key_at of key) fault }
{
    Refused {
        fault,
        place: Place::Tree(TreePlace::Key(of, key)),
    }
}

/// The fault of a table that has a key that is not listed for it.
pub fn unknown_key(of: TablePlace) -> Refused
    ensures { result ≡ refused (unknown_key_at of) file_fault.UnknownKey }
{
    Refused {
        fault: FileFault::UnknownKey,
        place: Place::Tree(TreePlace::UnknownKey(of)),
    }
}

/// The fault of an array as a whole.
pub fn at_array(of: Array, fault: FileFault) -> Refused
    ensures { result ≡ refused (array_at of) fault }
{
    Refused {
        fault,
        place: Place::Tree(TreePlace::Array(of)),
    }
}

/// The fault of the item of that number of an array that is not a table.
pub fn no_table(of: Array, number: usize) -> Refused
    ensures { result ≡ refused (item_at of number) file_fault.BadValue }
{
    Refused {
        fault: FileFault::BadValue,
        place: Place::Tree(TreePlace::Item(of, number)),
    }
}

/// The fault of the line of that number of the body of an item.
pub fn at_line(owner: Owner, number: usize, line: usize, fault: FileFault) -> Refused
    ensures { result ≡ refused (line_at owner number line) fault }
{
    Refused {
        fault,
        place: Place::Line(LinePlace {
            owner,
            item: number,
            line,
        }),
    }
}
