//! Lists and nodes: how they are made and freed, linked, unlinked and scanned. An object is named by the address of its
//! block. The calls of `Heap` have the effects; a word hands its arguments on, and ends as the answer says.
ghost use Rattle.std.specs.Prelude.{◌≡◌, [], IfOk, IsTrue, option_map, unwrap_or};
ghost use Rattle.std.specs.Int.{cast_signed, w32};
ghost use Rattle.script.specs.declared.word.lists.ListWord.TheVariants as lists;
ghost use Rattle.execmodel.specs.{State.ListHead, State.Node, Memory.placed, LowMemory.after_asking_for_object, Objects.place_for_object, Tasks.is_priority, Lists.find_alert, Lists.found_node, Lists.is_list, Lists.is_node, Lists.list_size, Lists.node_size, Lists.does_lists};
ghost use Rattle.execheap.specs.Refusals.{alert_of};
ghost use Rattle.execsim.specs.{Callers.HasTask, Agreement.Follows, Views.call_view};

use crate::call::Call;
use crate::kernel::Kernel;
use crate::tasks::is_priority;
use execheap::Refusal;
use execlist::space::ListSpace;
use exectrace::{Name, Witness};
use script::{Alert, ListWord};
use taskq::TaskId;

impl<S: ListSpace> Kernel<S> {
    // ---- made and freed

    /// A new empty list, if there is room for one, at once or after libraries were asked for memory.
    fn make_list(&mut self) -> Option<u32>
        ensures address { result ≡ place_for_object is_list list_size (after_asking_for_object is_list list_size self.old.memory) }
        ensures next { self.new ≡ record self.old {
          memory = placed list_size (ListHead []) result (after_asking_for_object is_list list_size self.old.memory);
        } }
    {
        self.memory.new_list()
    }

    /// A new node with the priority that the word is, read as a signed one, and with that name or none, if there is
    /// room for one, at once or after libraries were asked for memory.
    fn make_node(&mut self, pri: u32, name: Option<Name>) -> Option<u32>
        requires inside { IsTrue (is_priority (cast_signed w32 pri)) }
        ensures address { result ≡ place_for_object is_node node_size (after_asking_for_object is_node node_size self.old.memory) }
        ensures next { self.new ≡ record self.old {
          memory = placed node_size (Node (record { pri = cast_signed w32 pri; name = option_map (λ n. n.bytes) name })) result
              (after_asking_for_object is_node node_size self.old.memory);
        } }
    {
        self.memory.new_node(pri.cast_signed() as i8, name)
    }

    /// NewList: answers the address of a new empty list, or 0 (autodoc amiga.lib/NewList; that it takes the memory:
    /// project rule).
    #[tactic(auto, using(crate::proofs::Listing::list_made))]
    fn new_list<W: Witness>(&mut self, t: TaskId, call: &Call, out: &mut W)
        requires { HasTask t self.old }
        ensures { Follows W.hearing (does_lists lists.NewList t (call_view call.now)) self.old self.new (W.told out.old) (W.told out.new) }
    {
        let list = self.make_list();
        self.answer(t, call, list.unwrap_or(0), out);
    }

    /// FreeList list: frees an empty list. HANDLE if no list begins there, LINK if it has nodes (project rule).
    fn free_list<W: Witness>(&mut self, t: TaskId, call: &Call, out: &mut W)
        requires { HasTask t self.old }
        ensures { Follows W.hearing (does_lists lists.FreeList t (call_view call.now)) self.old self.new (W.told out.old) (W.told out.new) }
    {
        let list = call.number(0);
        let tried = self.memory.free_list(list);
        self.conclude(tried, t, call, out);
    }

    /// NewNode pri name: answers the address of a new node, which is not linked, or 0. VALUE if the priority, read as a
    /// signed word, is not in -128 to 127 (project rule).
    fn new_node<W: Witness>(&mut self, t: TaskId, call: &Call, out: &mut W)
        requires { HasTask t self.old }
        ensures { Follows W.hearing (does_lists lists.NewNode t (call_view call.now)) self.old self.new (W.told out.old) (W.told out.new) }
    {
        let pri = call.number(0);
        if !is_priority(pri) {
            self.alert(Alert::Value, t, call, out);
        } else {
            let node = self.make_node(pri, call.name(1));
            self.answer(t, call, node.unwrap_or(0), out);
        }
    }

    /// FreeNode node: frees a node. HANDLE if none begins there, LINK if it is linked (project rule).
    fn free_node<W: Witness>(&mut self, t: TaskId, call: &Call, out: &mut W)
        requires { HasTask t self.old }
        ensures { Follows W.hearing (does_lists lists.FreeNode t (call_view call.now)) self.old self.new (W.told out.old) (W.told out.new) }
    {
        let node = call.number(0);
        let tried = self.memory.free_node(node);
        self.conclude(tried, t, call, out);
    }

    // ---- linked

    /// AddHead list node: puts the node first. HANDLE if either is none, LINK if the node is linked (autodoc
    /// exec.library/AddHead; the alerts: project rule).
    fn add_head<W: Witness>(&mut self, t: TaskId, call: &Call, out: &mut W)
        requires { HasTask t self.old }
        ensures { Follows W.hearing (does_lists lists.AddHead t (call_view call.now)) self.old self.new (W.told out.old) (W.told out.new) }
    {
        let list = call.number(0);
        let node = call.number(1);
        let tried = self.memory.add_head(list, node);
        self.conclude(tried, t, call, out);
    }

    /// AddTail list node: puts the node last. The alerts are those of AddHead (autodoc exec.library/AddTail).
    fn add_tail<W: Witness>(&mut self, t: TaskId, call: &Call, out: &mut W)
        requires { HasTask t self.old }
        ensures { Follows W.hearing (does_lists lists.AddTail t (call_view call.now)) self.old self.new (W.told out.old) (W.told out.new) }
    {
        let list = call.number(0);
        let node = call.number(1);
        let tried = self.memory.add_tail(list, node);
        self.conclude(tried, t, call, out);
    }

    /// Enqueue list node: puts the node before the first one of lower priority, or last. The alerts are those of
    /// AddHead (autodoc exec.library/Enqueue).
    fn enqueue<W: Witness>(&mut self, t: TaskId, call: &Call, out: &mut W)
        requires { HasTask t self.old }
        ensures { Follows W.hearing (does_lists lists.Enqueue t (call_view call.now)) self.old self.new (W.told out.old) (W.told out.new) }
    {
        let list = call.number(0);
        let node = call.number(1);
        let tried = self.memory.enqueue(list, node);
        self.conclude(tried, t, call, out);
    }

    /// Insert list node pred: puts the node after pred, or first if pred is 0. HANDLE if one of them is none, LINK if
    /// the node is linked or pred is not in the list (autodoc exec.library/Insert; the alerts: project rule).
    fn insert<W: Witness>(&mut self, t: TaskId, call: &Call, out: &mut W)
        requires { HasTask t self.old }
        ensures { Follows W.hearing (does_lists lists.Insert t (call_view call.now)) self.old self.new (W.told out.old) (W.told out.new) }
    {
        let list = call.number(0);
        let node = call.number(1);
        let pred = call.number(2);
        let tried = self.memory.insert(list, node, pred);
        self.conclude(tried, t, call, out);
    }

    // ---- unlinked

    /// Remove node: takes the node out of its list. HANDLE if none begins there, LINK if it is not linked (autodoc
    /// exec.library/Remove; the alerts: project rule).
    fn remove<W: Witness>(&mut self, t: TaskId, call: &Call, out: &mut W)
        requires { HasTask t self.old }
        ensures { Follows W.hearing (does_lists lists.Remove t (call_view call.now)) self.old self.new (W.told out.old) (W.told out.new) }
    {
        let node = call.number(0);
        let tried = self.memory.remove(node);
        self.conclude(tried, t, call, out);
    }

    /// RemHead list: takes the first node out and answers it, or 0 for an empty list. HANDLE if no list begins there
    /// (autodoc exec.library/RemHead; the alert: project rule).
    fn rem_head<W: Witness>(&mut self, t: TaskId, call: &Call, out: &mut W)
        requires { HasTask t self.old }
        ensures { Follows W.hearing (does_lists lists.RemHead t (call_view call.now)) self.old self.new (W.told out.old) (W.told out.new) }
    {
        let list = call.number(0);
        let tried = self.memory.rem_head(list);
        self.conclude_with(tried, t, call, out);
    }

    /// RemTail list: takes the last node out and answers it, or 0 for an empty list. HANDLE if no list begins there
    /// (autodoc exec.library/RemTail; the alert: project rule).
    fn rem_tail<W: Witness>(&mut self, t: TaskId, call: &Call, out: &mut W)
        requires { HasTask t self.old }
        ensures { Follows W.hearing (does_lists lists.RemTail t (call_view call.now)) self.old self.new (W.told out.old) (W.told out.new) }
    {
        let list = call.number(0);
        let tried = self.memory.rem_tail(list);
        self.conclude_with(tried, t, call, out);
    }

    // ---- scanned

    /// First list: answers the first node, or 0 for an empty list. HANDLE if no list begins there (RKM Libraries, Exec
    /// Lists and Queues: scanning a list; the alert: project rule).
    fn first<W: Witness>(&mut self, t: TaskId, call: &Call, out: &mut W)
        requires { HasTask t self.old }
        ensures { Follows W.hearing (does_lists lists.First t (call_view call.now)) self.old self.new (W.told out.old) (W.told out.new) }
    {
        let list = call.number(0);
        let tried = self.memory.first(list);
        self.conclude_with(tried, t, call, out);
    }

    /// Last list: answers the last node, or 0 for an empty list. HANDLE if no list begins there (RKM Libraries, Exec
    /// Lists and Queues: scanning a list; the alert: project rule).
    fn last<W: Witness>(&mut self, t: TaskId, call: &Call, out: &mut W)
        requires { HasTask t self.old }
        ensures { Follows W.hearing (does_lists lists.Last t (call_view call.now)) self.old self.new (W.told out.old) (W.told out.new) }
    {
        let list = call.number(0);
        let tried = self.memory.last(list);
        self.conclude_with(tried, t, call, out);
    }

    /// Succ node: answers the node after a linked one, or 0. HANDLE if none begins there, LINK if it is not linked (RKM
    /// Libraries, Exec Lists and Queues: `ln_Succ`; the alerts: project rule).
    fn succ<W: Witness>(&mut self, t: TaskId, call: &Call, out: &mut W)
        requires { HasTask t self.old }
        ensures { Follows W.hearing (does_lists lists.Succ t (call_view call.now)) self.old self.new (W.told out.old) (W.told out.new) }
    {
        let node = call.number(0);
        let tried = self.memory.succ(node);
        self.conclude_with(tried, t, call, out);
    }

    /// Pred node: answers the node before a linked one, or 0. HANDLE if none begins there, LINK if it is not linked
    /// (RKM Libraries, Exec Lists and Queues: `ln_Pred`; the alerts: project rule).
    fn pred<W: Witness>(&mut self, t: TaskId, call: &Call, out: &mut W)
        requires { HasTask t self.old }
        ensures { Follows W.hearing (does_lists lists.Pred t (call_view call.now)) self.old self.new (W.told out.old) (W.told out.new) }
    {
        let node = call.number(0);
        let tried = self.memory.pred(node);
        self.conclude_with(tried, t, call, out);
    }

    /// The address of the first node of that name in a list, or after a linked node, or 0. If no name is given it is
    /// the empty one.
    fn find(&self, start: u32, name: Option<Name>) -> Result<u32, Refusal>
        ensures alert { alert_of result ≡ find_alert start self.now.memory.heap }
        ensures answer { IfOk result (λ answer. answer ≡ found_node start (unwrap_or (option_map (λ n. n.bytes) name) []) self.now.memory.heap) }
    {
        match name {
            None => self.memory.find_name(start, ""),
            Some(name) => self.memory.find_name(start, name.as_str()),
        }
    }

    /// FindName start name: answers the first node of that name in a list, or after a linked node, or 0. HANDLE if
    /// neither begins at the start, LINK if the node is not linked (autodoc exec.library/FindName; the alerts: project
    /// rule).
    fn find_name<W: Witness>(&mut self, t: TaskId, call: &Call, out: &mut W)
        requires { HasTask t self.old }
        ensures { Follows W.hearing (does_lists lists.FindName t (call_view call.now)) self.old self.new (W.told out.old) (W.told out.new) }
    {
        let start = call.number(0);
        let tried = self.find(start, call.name(1));
        self.conclude_with(tried, t, call, out);
    }

    /// A call of task t on lists and nodes, by its word.
    pub(crate) fn does_lists<W: Witness>(
        &mut self,
        word: ListWord,
        t: TaskId,
        call: &Call,
        out: &mut W,
    )
        requires { HasTask t self.old }
        ensures { Follows W.hearing (does_lists word t (call_view call.now)) self.old self.new (W.told out.old) (W.told out.new) }
    {
        match word {
            ListWord::NewList => self.new_list(t, call, out),
            ListWord::FreeList => self.free_list(t, call, out),
            ListWord::NewNode => self.new_node(t, call, out),
            ListWord::FreeNode => self.free_node(t, call, out),
            ListWord::AddHead => self.add_head(t, call, out),
            ListWord::AddTail => self.add_tail(t, call, out),
            ListWord::Enqueue => self.enqueue(t, call, out),
            ListWord::Insert => self.insert(t, call, out),
            ListWord::Remove => self.remove(t, call, out),
            ListWord::RemHead => self.rem_head(t, call, out),
            ListWord::RemTail => self.rem_tail(t, call, out),
            ListWord::First => self.first(t, call, out),
            ListWord::Last => self.last(t, call, out),
            ListWord::Succ => self.succ(t, call, out),
            ListWord::Pred => self.pred(t, call, out),
            ListWord::FindName => self.find_name(t, call, out),
        }
    }
}
