//! Libraries: how they are opened, closed and removed. A loaded library is named by its base, the address of its block.
//! The calls of `Heap` have the effects on memory.
ghost use Rattle.std.specs.Prelude.{◌≡◌};
ghost use Rattle.execmodel.specs.Libraries.{opening, opened, does_libraries, does_open_library, does_close_library, does_rem_library, does_lib_open_cnt};
ghost use Rattle.execsim.specs.{Callers.HasTask, Agreement.Follows, Views.call_view};

use crate::call::Call;
use crate::kernel::Kernel;
use crate::ports::name_or_empty;
use execlist::space::ListSpace;
use exectrace::{Name, Witness};
use script::LibraryWord;
use taskq::TaskId;

impl<S: ListSpace> Kernel<S> {
    /// Opens the library of a name with at least that version, if there is one and it has a place; the others are asked
    /// for memory if it is to be loaded.
    fn open(&mut self, name: Name, version: u32) -> Option<u32>
        ensures answer { result ≡ opening name.bytes version self.old.memory }
        ensures next { self.new ≡ record self.old { memory = opened name.bytes version self.old.memory } }
    {
        self.memory.open_library(name.as_str(), version)
    }

    /// OpenLibrary name version: answers the base of the library of that name, which is loaded first if it is absent,
    /// and is open once more; 0 if there is none of the name, its version is lower, it is open 65,535 times, or there
    /// is no place for it (autodoc exec.library/OpenLibrary; the count, and that a library takes memory with
    /// MEMF_PUBLIC: project rule).
    #[tactic(auto, using(crate::proofs::Opening::open_answered))]
    fn open_library<W: Witness>(&mut self, t: TaskId, call: &Call, out: &mut W)
        requires { HasTask t self.old }
        ensures { Follows W.hearing (does_open_library t (call_view call.now)) self.old self.new (W.told out.old) (W.told out.new) }
    {
        let name = name_or_empty(call.name(0));
        let base = self.open(name, call.number(1));
        self.answer(t, call, base.unwrap_or(0), out);
    }

    /// CloseLibrary base: the library is open one time less, and is freed if it is to be expunged and is no longer
    /// open; 0 does nothing. HANDLE if no loaded library begins there, LIB if it is not open (autodoc
    /// exec.library/CloseLibrary; the alerts: project rule).
    fn close_library<W: Witness>(&mut self, t: TaskId, call: &Call, out: &mut W)
        requires { HasTask t self.old }
        ensures { Follows W.hearing (does_close_library t (call_view call.now)) self.old self.new (W.told out.old) (W.told out.new) }
    {
        let base = call.number(0);
        if base == 0 {
            self.end_call(t, call, out);
        } else {
            let tried = self.memory.close_library(base);
            self.conclude(tried, t, call, out);
        }
    }

    /// RemLibrary base: the library is expunged, or is to be when it is closed for the last time. HANDLE if no loaded
    /// library begins there (autodoc exec.library/RemLibrary; the alert: project rule).
    fn rem_library<W: Witness>(&mut self, t: TaskId, call: &Call, out: &mut W)
        requires { HasTask t self.old }
        ensures { Follows W.hearing (does_rem_library t (call_view call.now)) self.old self.new (W.told out.old) (W.told out.new) }
    {
        let base = call.number(0);
        let tried = self.memory.remove_library(base);
        self.conclude(tried, t, call, out);
    }

    /// LibOpenCnt base: answers how often the library is open. HANDLE if no loaded library begins there (RKM Libraries,
    /// Exec Libraries: lib_OpenCnt; that there is a call for it: project rule).
    fn lib_open_cnt<W: Witness>(&mut self, t: TaskId, call: &Call, out: &mut W)
        requires { HasTask t self.old }
        ensures { Follows W.hearing (does_lib_open_cnt t (call_view call.now)) self.old self.new (W.told out.old) (W.told out.new) }
    {
        let base = call.number(0);
        let tried = self.memory.library_count(base);
        self.conclude_with(tried, t, call, out);
    }

    /// A call of task t on libraries, by its word.
    pub(crate) fn does_libraries<W: Witness>(
        &mut self,
        word: LibraryWord,
        t: TaskId,
        call: &Call,
        out: &mut W,
    )
        requires { HasTask t self.old }
        ensures { Follows W.hearing (does_libraries word t (call_view call.now)) self.old self.new (W.told out.old) (W.told out.new) }
    {
        match word {
            LibraryWord::OpenLibrary => self.open_library(t, call, out),
            LibraryWord::CloseLibrary => self.close_library(t, call, out),
            LibraryWord::RemLibrary => self.rem_library(t, call, out),
            LibraryWord::LibOpenCnt => self.lib_open_cnt(t, call, out),
        }
    }
}
