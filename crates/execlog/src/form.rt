//! How the entries of a log are written.
ghost use Rattle.std.specs.Prelude.{◌≡◌, [], false, List, OnOk, ℕ};
ghost use Rattle.execlog.specs.Log.{Entry, Gains};

use crate::head::Head;
use crate::moment::{Actor, Moment};
use crate::page::Page;
use execlist::space::ListSpace;
use execsim::Machine;
use std::alloc::AllocError;

/// What a form needs to know of a machine as it was before a step, a tick or a request.
#[derive(Clone, Copy)]
pub struct Before {
    /// What the variables of the task held whose command the step is, by number.
    pub private: [u32; 32],
    /// What the shared variables held, by number.
    pub shared: [u32; 64],
    /// The columns of the number, and of the time as it was, if the form has noted them.
    pub(crate) head: Head,
}

impl Before {
    /// Nothing was noted.
    ///
    /// Source: project rule.
    pub fn new() -> Before {
        Before {
            private: [0; 32],
            shared: [0; 64],
            head: Head::of(0, 0),
        }
    }
}

/// How the entries of a log are written.
pub trait Form {
    /// How bytes show an entry.
    ghost shows: { Self → Entry → List ℕ → Type 0 };

    /// Notes what the form needs of a machine before the step, tick or request of that number.
    fn note<S: ListSpace>(
        &self,
        machine: &Machine<S>,
        number: u64,
        actor: Option<Actor>,
        before: &mut Before,
    );

    /// Whether entries that printed nothing are shown.
    fn shows_silent(&self) -> bool
        ensures { result ≡ false → (moment : Moment) → shows self.now (record { moment = moment; text = [] }) [] };

    /// Adds bytes that show an entry to a page: what is known of it, and the text that it printed.
    fn push_entry(
        &self,
        before: &Before,
        moment: &Moment,
        text: &[u8],
        page: &mut Page,
    ) -> Result<(), AllocError>
        ensures { OnOk result (Gains (shows self.now (record { moment = moment.now; text = text.now })) page.old page.new) };
}
