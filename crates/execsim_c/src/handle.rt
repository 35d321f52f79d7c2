//! What a C program has of a machine between its calls: a pointer, and in the proofs the machine that lies there.
ghost use Rattle.std.specs.Prelude.{◌≡◌, None, Some, option_map};
ghost use Rattle.execsim_c.specs.Held.{Kept, held, kept_coded};

use crate::raw_box::RawBox;
use crate::session::Session;
use std::alloc::Global;
use std::marker::Model;
use std::mem::replace;
use std::ptr::null_mut;

/// A handle of a machine. A null pointer is a handle of none.
#[repr(C)]
pub struct MachineHandle {
    at: *mut u8,
    alloc: Global,
    ghost session: { Kept } by { kept_coded },
}

impl Model for MachineHandle {
    ghost also_owns = { λ h. held h.alloc h.at h.session };
}

impl MachineHandle {
    /// A handle of no machine.
    pub(crate) fn closed(alloc: Global) -> MachineHandle
        ensures { result.session ≡ None }
    {
        MachineHandle {
            at: null_mut(),
            alloc,
        }
    }

    /// The handle of a machine.
    pub(crate) fn of(loose: RawBox<Session, Global>) -> MachineHandle
        ensures { result.session ≡ Some loose.value }
    {
        let RawBox { at, alloc } = loose;
        MachineHandle {
            at: at.cast::<u8>(),
            alloc,
        }
    }

    /// The machine of a handle, if it has one.
    pub(crate) fn into_raw_box(self) -> Option<RawBox<Session, Global>>
        ensures { option_map (λ l. l.value) result ≡ self.session }
    {
        let MachineHandle { at, alloc } = self;
        if at.is_null() {
            None
        } else {
            Some(RawBox {
                at: at.cast::<Session>(),
                alloc,
            })
        }
    }

    /// Takes the machine out of a handle, which has none then.
    pub(crate) fn take(&mut self, alloc: Global) -> Option<Box<Session>>
        ensures taken { option_map (λ session. session.value) result ≡ self.old.session }
        ensures closed { self.new.session ≡ None }
    {
        match replace(self, MachineHandle::closed(alloc)).into_raw_box() {
            None => None,
            Some(loose) => Some(loose.into_box()),
        }
    }

    /// Puts a machine into a handle, and closes the one that it had.
    pub(crate) fn put(&mut self, session: Box<Session>)
        ensures { self.new.session ≡ Some session.value }
    {
        drop(replace(self, MachineHandle::of(RawBox::of(session))));
    }
}

impl Drop for MachineHandle {
    fn drop(self) {
        match self.into_raw_box() {
            None => (),
            Some(loose) => drop(loose.into_box()),
        }
    }
}
