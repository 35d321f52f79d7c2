//! Libraries, and the blocks into which they are loaded: by number, and opened, closed and removed by address (RKM
//! Libraries, Exec Libraries).
ghost use Rattle.std.specs.Prelude.{◌≡◌, None, Some, IfSome, IsTrue, IfOk, OnErr, OnOk};
ghost use Rattle.execlib.specs.Libraries.{close_fault, count_of, is_loaded};
ghost use Rattle.execheap.specs.{Table.base_at, Table.library_at, Numbered.IsKnown, Numbered.shown_memory, Numbered.shown_heap, Refusals.alert_of};
ghost use Rattle.execmodel.specs.Libraries as model;

use crate::heap::Heap;
use crate::objects::Objects;
use crate::refusal::Refusal;
use execlib::libs::LibId;
use execlist::space::ListSpace;

impl<S: ListSpace> Objects<S> {
    /// The number of the loaded library that begins at an address, if one does. A call on libraries begins here, and
    /// learns here what always holds of the objects.
    pub fn library_number(&self, address: u32) -> Option<LibId>
        ensures value { result ≡ library_at address self.now.table }
        ensures live { IfSome result (λ i. base_at i self.now.table.libs ≡ Some address) }
        ensures known { IsKnown self.now }
    {
        self.facts();
        self.table.library_at(address)
    }

    /// How often a loaded library is open.
    ///
    /// Source: RKM Libraries, Exec Libraries: `lib_OpenCnt`.
    pub fn library_count(&self, i: LibId) -> u32
        requires { IsTrue (is_loaded i self.now.table.libs) }
        ensures { result ≡ count_of i self.now.table.libs }
    {
        self.table.library_count(i)
    }

    /// Opens the library of a name that has at least a version, loading it first if it is absent: its base, if it was
    /// opened.
    ///
    /// Source: autodoc exec.library/OpenLibrary.
    pub fn open_library(&mut self, name: &str, version: u32) -> Option<u32>
        ensures answer { result ≡ model.opening name.now version (shown_memory self.old) }
        ensures next { shown_memory self.new ≡ model.opened name.now version (shown_memory self.old) }
    {
        self.table.open_library(name, version)
    }

    /// Closes once the open library that begins at an address.
    ///
    /// Source: autodoc exec.library/CloseLibrary.
    pub fn close_library(&mut self, i: LibId, base: u32)
        requires live { base_at i self.old.table.libs ≡ Some base }
        requires open { close_fault i self.old.table.libs ≡ None }
        ensures { shown_memory self.new ≡ model.closed base (shown_memory self.old) }
    {
        let _ = base;
        self.table.close_library(i);
    }

    /// Removes the library that begins at an address, now or when it is closed for the last time.
    ///
    /// Source: autodoc exec.library/RemLibrary.
    pub fn remove_library(&mut self, i: LibId, base: u32)
        requires { base_at i self.old.table.libs ≡ Some base }
        ensures { shown_memory self.new ≡ model.after_expunge base (shown_memory self.old) }
    {
        let _ = base;
        self.table.remove_library(i);
    }

    // ---- found by address; or why the call is refused

    /// The loaded library that begins at an address.
    pub fn library_at(&self, base: u32) -> Result<LibId, Refusal>
        ensures alert { alert_of result ≡ model.library_alert base (shown_heap self.now) }
        ensures found { IfOk result (λ i. base_at i self.now.table.libs ≡ Some base) }
        ensures known { IsKnown self.now }
    {
        match self.library_number(base) {
            Some(i) => Ok(i),
            None => Err(Refusal::Handle),
        }
    }

    /// The loaded library that begins at an address, which is open.
    pub fn open_library_at(&self, base: u32) -> Result<LibId, Refusal>
        ensures alert { alert_of result ≡ model.close_alert base (shown_heap self.now) }
        ensures found { IfOk result (λ i. base_at i self.now.table.libs ≡ Some base) }
        ensures open { IfOk result (λ i. close_fault i self.now.table.libs ≡ None) }
        ensures known { IsKnown self.now }
    {
        match self.library_number(base) {
            None => Err(Refusal::Handle),
            Some(i) => {
                if self.library_count(i) == 0 {
                    Err(Refusal::Lib)
                } else {
                    Ok(i)
                }
            }
        }
    }
}

impl<S: ListSpace> Heap<S> {
    /// Opens the library of a name that has at least a version, and answers its base. One that is absent is loaded
    /// first: it takes a block of its size, of public memory, and the others are asked for memory as in `alloc_mem`. It
    /// is open once more, and is not to be expunged any more. None if there is none of the name, its version is lower,
    /// it is open 65,535 times, or its block fits nowhere; then nothing changes but libraries that were asked for
    /// memory. Autodoc exec.library/OpenLibrary; the count, and that a library takes public memory: project rule.
    pub fn open_library(&mut self, name: &str, version: u32) -> Option<u32>
        ensures answer { result ≡ model.opening name.now version self.old }
        ensures next { self.new ≡ model.opened name.now version self.old }
    {
        self.objects.open_library(name, version)
    }

    /// Closes once the library that begins at an address. One that is to be expunged, and is open no more, is freed. It
    /// is refused if no loaded library begins at the address (Handle), and if it is not open (Lib). Autodoc
    /// exec.library/CloseLibrary; the refusals: project rule.
    pub fn close_library(&mut self, base: u32) -> Result<(), Refusal>
        ensures alert { alert_of result ≡ model.close_alert base self.old.heap }
        ensures next { OnOk result (self.new ≡ model.closed base self.old) }
        ensures kept { OnErr result (self.new ≡ self.old) }
    {
        let i = self.objects.open_library_at(base)?;
        self.objects.close_library(i, base);
        Ok(())
    }

    /// Removes the library that begins at an address: one that is not open is freed, an open one is to be expunged when
    /// it is closed for the last time. It is refused if no loaded library begins at the address (Handle). Autodoc
    /// exec.library/RemLibrary; the refusal: project rule.
    pub fn remove_library(&mut self, base: u32) -> Result<(), Refusal>
        ensures alert { alert_of result ≡ model.library_alert base self.old.heap }
        ensures next { OnOk result (self.new ≡ model.after_expunge base self.old) }
        ensures kept { OnErr result (self.new ≡ self.old) }
    {
        let i = self.objects.library_at(base)?;
        self.objects.remove_library(i, base);
        Ok(())
    }

    /// Answers how often the library that begins at an address is open. It is refused if no loaded library begins there
    /// (Handle). RKM Libraries, Exec Libraries: `lib_OpenCnt`; the refusal: project rule.
    pub fn library_count(&self, base: u32) -> Result<u32, Refusal>
        ensures alert { alert_of result ≡ model.library_alert base self.now.heap }
        ensures answer { IfOk result (λ answer. answer ≡ model.count_of base self.now.heap) }
    {
        let i = self.objects.library_at(base)?;
        Ok(self.objects.library_count(i))
    }
}
