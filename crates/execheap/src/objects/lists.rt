//! Lists and nodes: by number, with the blocks in which they live; how they are found by address; and the calls by
//! address.
ghost use Rattle.std.specs.Prelude.{◌≡◌, [], None, Some, find, map, option_map, IfOk, IfSome, IsSome, OnErr, OnOk};
ghost use Rattle.std.specs.Option.{ForSome};
ghost use Rattle.execlist.specs.{Order.first, Lists.home, Lists.is_named, Lists.last, Lists.part_after, Lists.part_before, Lists.part_from, Lists.sequence, Pool.slot};
ghost use Rattle.execmodel.specs.{State.ListHead, State.Node, State.on_heap, Memory.freed, Memory.placed, LowMemory.after_asking_for_object, Objects.place_for_object};
ghost use Rattle.execheap.specs.{Numbered.IsKnown, Numbered.places, Numbered.shown_memory, Numbered.address_in, Numbered.shown_heap, Changes.key_with, Changes.at_head, Changes.at_tail, Changes.queued, Changes.put, Changes.taken_out, Changes.head_taken, Changes.tail_taken, Refusals.alert_of, Refusals.is_none_or_in};
ghost use Rattle.execheap.specs.declared.tag.Kind.TheVariants as variant;
ghost use Rattle.execmodel.specs.Lists as model;

use crate::heap::Heap;
use crate::objects::Objects;
use crate::refusal::Refusal;
use crate::tag::Kind;
use execlist::key::Name;
use execlist::space::{HeaderId, ListSpace, NodeId};

impl<S: ListSpace> Objects<S> {
    // ---- lists and nodes made and freed

    /// A new empty list, if the pool has one left and its block fits, at once or after libraries were asked for memory:
    /// its address.
    ///
    /// Source: autodoc amiga.lib/NewList; that it takes the memory is a project rule.
    pub fn make_list(&mut self) -> Option<u32>
        ensures address { result ≡ place_for_object model.is_list model.list_size (after_asking_for_object model.is_list model.list_size (shown_memory self.old)) }
        ensures next { shown_memory self.new ≡ placed model.list_size (ListHead []) result (after_asking_for_object model.is_list model.list_size (shown_memory self.old)) }
    {
        let (_, list) = self.table.make(Kind::List)?;
        Some(list)
    }

    /// A new node with that key, if the pool has one left and its block fits, at once or after libraries were asked for
    /// memory: its address.
    ///
    /// Source: RKM Libraries, Exec Lists and Queues: node initialization; that it takes the memory is a project rule.
    pub fn make_node(&mut self, pri: i8, name: Option<Name>) -> Option<u32>
        ensures address { result ≡ place_for_object model.is_node model.node_size (after_asking_for_object model.is_node model.node_size (shown_memory self.old)) }
        ensures next { shown_memory self.new ≡ placed model.node_size (Node (key_with pri (option_map (λ text. text.bytes) name))) result (after_asking_for_object model.is_node model.node_size (shown_memory self.old)) }
    {
        let (n, node) = self.table.make(Kind::Node)?;
        self.space.set_key(n, pri, name);
        Some(node)
    }

    /// Frees an empty list.
    pub fn free_list(&mut self, h: HeaderId, address: u32)
        requires live { slot (places variant.List self.old) h ≡ Some address }
        requires empty { sequence self.old.sequences h ≡ [] }
        ensures { shown_memory self.new ≡ freed address (shown_memory self.old) }
    {
        self.table.free(Kind::List, h, address);
    }

    /// Frees a node that is not linked.
    pub fn free_node(&mut self, n: NodeId, address: u32)
        requires live { slot (places variant.Node self.old) n ≡ Some address }
        requires unlinked { home self.old.homes n ≡ None }
        ensures { shown_memory self.new ≡ freed address (shown_memory self.old) }
    {
        self.table.free(Kind::Node, n, address);
    }

    // ---- linking

    /// The list that has a live node, if one has.
    pub fn home(&self, n: NodeId) -> Option<HeaderId>
        requires { IsSome (slot (places variant.Node self.now) n) }
        ensures { result ≡ home self.now.homes n }
    {
        self.space.home(n)
    }

    /// Puts an unlinked node first.
    ///
    /// Source: autodoc exec.library/AddHead.
    pub fn add_head(&mut self, h: HeaderId, n: NodeId)
        requires list { IsSome (slot (places variant.List self.old) h) }
        requires node { IsSome (slot (places variant.Node self.old) n) }
        requires unlinked { home self.old.homes n ≡ None }
        ensures { self.new ≡ at_head h n self.old }
    {
        self.space.add_head(h, n);
    }

    /// Puts an unlinked node last.
    ///
    /// Source: autodoc exec.library/AddTail.
    pub fn add_tail(&mut self, h: HeaderId, n: NodeId)
        requires list { IsSome (slot (places variant.List self.old) h) }
        requires node { IsSome (slot (places variant.Node self.old) n) }
        requires unlinked { home self.old.homes n ≡ None }
        ensures { self.new ≡ at_tail h n self.old }
    {
        self.space.add_tail(h, n);
    }

    /// Puts an unlinked node before the first node of lower priority.
    ///
    /// Source: autodoc exec.library/Enqueue.
    pub fn enqueue(&mut self, h: HeaderId, n: NodeId)
        requires list { IsSome (slot (places variant.List self.old) h) }
        requires node { IsSome (slot (places variant.Node self.old) n) }
        requires unlinked { home self.old.homes n ≡ None }
        ensures { self.new ≡ queued h n self.old }
    {
        self.space.enqueue(h, n);
    }

    /// Puts an unlinked node after a node of the list, or first for none.
    ///
    /// Source: autodoc exec.library/Insert.
    pub fn insert(&mut self, h: HeaderId, n: NodeId, pred: Option<NodeId>)
        requires list { IsSome (slot (places variant.List self.old) h) }
        requires node { IsSome (slot (places variant.Node self.old) n) }
        requires unlinked { home self.old.homes n ≡ None }
        requires pred_in { ForSome pred (λ p. home self.old.homes p ≡ Some h) }
        ensures { self.new ≡ put h n pred self.old }
    {
        self.space.insert(h, n, pred);
    }

    /// Takes a linked node out of its list.
    ///
    /// Source: autodoc exec.library/Remove.
    pub fn remove(&mut self, n: NodeId)
        requires { IsSome (home self.old.homes n) }
        ensures { self.new ≡ taken_out n self.old }
    {
        self.space.remove(n);
    }

    /// Takes the first node out of a list, if it has one.
    ///
    /// Source: autodoc exec.library/RemHead.
    pub fn rem_head(&mut self, h: HeaderId) -> Option<NodeId>
        requires { IsSome (slot (places variant.List self.old) h) }
        ensures value { result ≡ first (sequence self.old.sequences h) }
        ensures live { IfSome result (λ n. IsSome (slot (places variant.Node self.new) n)) }
        ensures next { self.new ≡ head_taken h self.old }
    {
        self.space.rem_head(h)
    }

    /// Takes the last node out of a list, if it has one.
    ///
    /// Source: autodoc exec.library/RemTail.
    pub fn rem_tail(&mut self, h: HeaderId) -> Option<NodeId>
        requires { IsSome (slot (places variant.List self.old) h) }
        ensures value { result ≡ last (sequence self.old.sequences h) }
        ensures live { IfSome result (λ n. IsSome (slot (places variant.Node self.new) n)) }
        ensures next { self.new ≡ tail_taken h self.old }
    {
        self.space.rem_tail(h)
    }

    // ---- scanning

    /// The first node of a list, if it has one.
    ///
    /// Source: RKM Libraries, Exec Lists and Queues: scanning a list.
    pub fn first(&self, h: HeaderId) -> Option<NodeId>
        requires { IsSome (slot (places variant.List self.now) h) }
        ensures value { result ≡ first (sequence self.now.sequences h) }
        ensures live { IfSome result (λ n. IsSome (slot (places variant.Node self.now) n)) }
    {
        self.space.first(h)
    }

    /// The last node of a list, if it has one.
    ///
    /// Source: RKM Libraries, Exec Lists and Queues: scanning a list.
    pub fn last(&self, h: HeaderId) -> Option<NodeId>
        requires { IsSome (slot (places variant.List self.now) h) }
        ensures value { result ≡ last (sequence self.now.sequences h) }
        ensures live { IfSome result (λ n. IsSome (slot (places variant.Node self.now) n)) }
    {
        self.space.last(h)
    }

    /// The node after a linked one, if there is one.
    ///
    /// Source: RKM Libraries, Exec Lists and Queues: `ln_Succ`.
    pub fn succ(&self, n: NodeId) -> Option<NodeId>
        requires { IsSome (home self.now.homes n) }
        ensures value { ForSome (home self.now.homes n) (λ h. result ≡ first (part_after n (sequence self.now.sequences h))) }
        ensures live { IfSome result (λ m. IsSome (slot (places variant.Node self.now) m)) }
    {
        self.space.succ(n)
    }

    /// The node before a linked one, if there is one.
    ///
    /// Source: RKM Libraries, Exec Lists and Queues: `ln_Pred`.
    pub fn pred(&self, n: NodeId) -> Option<NodeId>
        requires { IsSome (home self.now.homes n) }
        ensures value { ForSome (home self.now.homes n) (λ h. result ≡ last (part_before n (sequence self.now.sequences h))) }
        ensures live { IfSome result (λ m. IsSome (slot (places variant.Node self.now) m)) }
    {
        self.space.pred(n)
    }

    /// The first node of a name in a list, or after a node of it.
    ///
    /// Source: autodoc exec.library/FindName.
    pub fn find_name(&self, h: HeaderId, after: Option<NodeId>, name: &str) -> Option<NodeId>
        requires list { IsSome (slot (places variant.List self.now) h) }
        requires after_in { ForSome after (λ n. home self.now.homes n ≡ Some h) }
        ensures value { result ≡ find (is_named self.now.keys name.now) (part_from after (sequence self.now.sequences h)) }
        ensures live { IfSome result (λ n. IsSome (slot (places variant.Node self.now) n)) }
    {
        self.space.find_name(h, after, name)
    }

    // ---- found by address; or why the call is refused

    /// The list that begins at an address.
    pub fn list_at(&self, list: u32) -> Result<HeaderId, Refusal>
        ensures alert { alert_of result ≡ model.list_alert list (shown_heap self.now) }
        ensures found { IfOk result (λ h. slot (places variant.List self.now) h ≡ Some list) }
        ensures known { IsKnown self.now }
    {
        match self.number_at(Kind::List, list) {
            Some(h) => Ok(h),
            None => Err(Refusal::Handle),
        }
    }

    /// The list that begins at an address, which has no node.
    pub fn empty_list_at(&self, list: u32) -> Result<HeaderId, Refusal>
        ensures alert { alert_of result ≡ model.free_list_alert list (shown_heap self.now) }
        ensures found { IfOk result (λ h. slot (places variant.List self.now) h ≡ Some list) }
        ensures empty { IfOk result (λ h. first (sequence self.now.sequences h) ≡ None) }
        ensures known { IsKnown self.now }
    {
        match self.number_at(Kind::List, list) {
            None => Err(Refusal::Handle),
            Some(h) => match self.first(h) {
                Some(_) => Err(Refusal::Link),
                None => Ok(h),
            },
        }
    }

    /// The node that begins at an address, which is not linked.
    pub fn unlinked_node_at(&self, node: u32) -> Result<NodeId, Refusal>
        ensures alert { alert_of result ≡ model.free_node_alert node (shown_heap self.now) }
        ensures found { IfOk result (λ n. slot (places variant.Node self.now) n ≡ Some node) }
        ensures unlinked { IfOk result (λ n. home self.now.homes n ≡ None) }
        ensures known { IsKnown self.now }
    {
        match self.number_at(Kind::Node, node) {
            None => Err(Refusal::Handle),
            Some(n) => match self.home(n) {
                Some(_) => Err(Refusal::Link),
                None => Ok(n),
            },
        }
    }

    /// The node that begins at an address, which is linked, after the list that has it.
    pub fn linked_node_at(&self, node: u32) -> Result<(HeaderId, NodeId), Refusal>
        ensures alert { alert_of result ≡ model.linked_alert node (shown_heap self.now) }
        ensures found { IfOk result (λ pair. slot (places variant.Node self.now) pair.1 ≡ Some node) }
        ensures linked { IfOk result (λ pair. home self.now.homes pair.1 ≡ Some pair.0) }
        ensures known { IsKnown self.now }
    {
        match self.number_at(Kind::Node, node) {
            None => Err(Refusal::Handle),
            Some(n) => match self.home(n) {
                Some(h) => Ok((h, n)),
                None => Err(Refusal::Link),
            },
        }
    }

    /// The list that begins at an address, and the node that begins at another and is not linked.
    pub fn to_link(&self, list: u32, node: u32) -> Result<(HeaderId, NodeId), Refusal>
        ensures alert { alert_of result ≡ model.link_alert list node (shown_heap self.now) }
        ensures list { IfOk result (λ pair. slot (places variant.List self.now) pair.0 ≡ Some list) }
        ensures node { IfOk result (λ pair. slot (places variant.Node self.now) pair.1 ≡ Some node) }
        ensures unlinked { IfOk result (λ pair. home self.now.homes pair.1 ≡ None) }
        ensures known { IsKnown self.now }
    {
        let h = self.list_at(list)?;
        let n = self.unlinked_node_at(node)?;
        Ok((h, n))
    }

    /// Whether a node, if there is one, is in a list.
    fn is_in(&self, pred: Option<NodeId>, h: HeaderId) -> bool
        requires { ForSome pred (λ p. IsSome (slot (places variant.Node self.now) p)) }
        ensures { result ≡ is_none_or_in pred h self.now.homes }
    {
        match pred {
            None => true,
            Some(p) => self.home(p) == Some(h),
        }
    }

    /// The node that begins at an address, as a predecessor: address 0 is none.
    fn predecessor_at(&self, pred: u32) -> Result<Option<NodeId>, Refusal>
        ensures alert { alert_of result ≡ model.pred_alert (model.predecessor pred) (shown_heap self.now) }
        ensures found { IfOk result (λ p. option_map (address_in (places variant.Node self.now)) p ≡ model.predecessor pred) }
        ensures live { IfOk result (λ p. ForSome p (λ n. IsSome (slot (places variant.Node self.now) n))) }
    {
        if pred == 0 {
            return Ok(None);
        }
        match self.number_at(Kind::Node, pred) {
            Some(p) => Ok(Some(p)),
            None => Err(Refusal::Handle),
        }
    }

    /// The list and the node that begin at addresses, the node not linked, and the node of the list that begins at a
    /// third one, or none for 0.
    pub fn to_insert(
        &self,
        list: u32,
        node: u32,
        pred: u32,
    ) -> Result<(HeaderId, NodeId, Option<NodeId>), Refusal>
        ensures alert { alert_of result ≡ model.insert_alert list node pred (shown_heap self.now) }
        ensures list { IfOk result (λ three. slot (places variant.List self.now) three.0 ≡ Some list) }
        ensures node { IfOk result (λ three. slot (places variant.Node self.now) three.1 ≡ Some node) }
        ensures pred { IfOk result (λ three. option_map (address_in (places variant.Node self.now)) three.2 ≡ model.predecessor pred) }
        ensures unlinked { IfOk result (λ three. home self.now.homes three.1 ≡ None) }
        ensures pred_in { IfOk result (λ three. ForSome three.2 (λ p. home self.now.homes p ≡ Some three.0)) }
        ensures known { IsKnown self.now }
    {
        let h = self.list_at(list)?;
        match self.number_at(Kind::Node, node) {
            None => Err(Refusal::Handle),
            Some(n) => {
                let p = self.predecessor_at(pred)?;
                match self.home(n) {
                    Some(_) => Err(Refusal::Link),
                    None => {
                        if self.is_in(p, h) {
                            Ok((h, n, p))
                        } else {
                            Err(Refusal::Link)
                        }
                    }
                }
            }
        }
    }

    /// Where FindName begins: at the first node of the list that begins at an address, or after the linked node that
    /// does.
    ///
    /// Source: autodoc exec.library/FindName: it starts at a list header or after a node.
    pub fn to_search(&self, start: u32) -> Result<(HeaderId, Option<NodeId>), Refusal>
        ensures alert { alert_of result ≡ model.find_alert start (shown_heap self.now) }
        ensures live { IfOk result (λ pair. IsSome (slot (places variant.List self.now) pair.0)) }
        ensures after_in { IfOk result (λ pair. ForSome pair.1 (λ n. home self.now.homes n ≡ Some pair.0)) }
        ensures searched { IfOk result (λ pair. model.searched start (shown_heap self.now)
            ≡ map (address_in (places variant.Node self.now)) (part_from pair.1 (sequence self.now.sequences pair.0))) }
        ensures known { IsKnown self.now }
    {
        match self.number_at(Kind::List, start) {
            Some(h) => Ok((h, None)),
            None => {
                let (h, n) = self.linked_node_at(start)?;
                Ok((h, Some(n)))
            }
        }
    }

    /// The address of a live node, or 0 for none.
    pub fn address_or_0(&self, n: Option<NodeId>) -> u32
        requires { IfSome n (λ m. IsSome (slot (places variant.Node self.now) m)) }
        ensures { result ≡ model.or_none (option_map (address_in (places variant.Node self.now)) n) }
    {
        match n {
            Some(n) => self.address_of(Kind::Node, n),
            None => 0,
        }
    }
}

impl<S: ListSpace> Heap<S> {
    // ---- lists and nodes made and freed

    /// Makes an empty list and answers its address; none if the pool has no list left, which asks nothing, or its block
    /// fits nowhere, even after libraries were asked for memory (autodoc amiga.lib/NewList; that it takes the memory:
    /// project rule).
    pub fn new_list(&mut self) -> Option<u32>
        ensures address { result ≡ place_for_object model.is_list model.list_size (after_asking_for_object model.is_list model.list_size self.old) }
        ensures next { self.new ≡ placed model.list_size (ListHead []) result (after_asking_for_object model.is_list model.list_size self.old) }
    {
        self.objects.make_list()
    }

    /// Makes a node with that priority and that name or none, which is not linked, and answers its address; none if the
    /// pool has no node left, which asks nothing, or its block fits nowhere, even after libraries were asked for memory
    /// (project rule).
    pub fn new_node(&mut self, pri: i8, name: Option<Name>) -> Option<u32>
        ensures address { result ≡ place_for_object model.is_node model.node_size (after_asking_for_object model.is_node model.node_size self.old) }
        ensures next { self.new ≡ placed model.node_size (Node (key_with pri (option_map (λ text. text.bytes) name))) result (after_asking_for_object model.is_node model.node_size self.old) }
    {
        self.objects.make_node(pri, name)
    }

    /// Frees a list. It is refused if no list begins at the address (Handle), and if the list has nodes (Link); project
    /// rule.
    pub fn free_list(&mut self, list: u32) -> Result<(), Refusal>
        ensures alert { alert_of result ≡ model.free_list_alert list self.old.heap }
        ensures next { OnOk result (self.new ≡ freed list self.old) }
        ensures kept { OnErr result (self.new ≡ self.old) }
    {
        let h = self.objects.empty_list_at(list)?;
        self.objects.free_list(h, list);
        Ok(())
    }

    /// Frees a node. It is refused if no node begins at the address (Handle), and if the node is linked (Link); project
    /// rule.
    pub fn free_node(&mut self, node: u32) -> Result<(), Refusal>
        ensures alert { alert_of result ≡ model.free_node_alert node self.old.heap }
        ensures next { OnOk result (self.new ≡ freed node self.old) }
        ensures kept { OnErr result (self.new ≡ self.old) }
    {
        let n = self.objects.unlinked_node_at(node)?;
        self.objects.free_node(n, node);
        Ok(())
    }

    // ---- linking

    /// Puts a node first in a list. It is refused if no list or no node begins at its address (Handle), and if the
    /// node is linked (Link). Autodoc exec.library/AddHead; the refusals: project rule.
    pub fn add_head(&mut self, list: u32, node: u32) -> Result<(), Refusal>
        ensures alert { alert_of result ≡ model.link_alert list node self.old.heap }
        ensures next { OnOk result (self.new ≡ on_heap (model.added_head list node) self.old) }
        ensures kept { OnErr result (self.new ≡ self.old) }
    {
        let (h, n) = self.objects.to_link(list, node)?;
        self.objects.add_head(h, n);
        Ok(())
    }

    /// Puts a node last in a list. It is refused if no list or no node begins at its address (Handle), and if the
    /// node is linked (Link). Autodoc exec.library/AddTail; the refusals: project rule.
    pub fn add_tail(&mut self, list: u32, node: u32) -> Result<(), Refusal>
        ensures alert { alert_of result ≡ model.link_alert list node self.old.heap }
        ensures next { OnOk result (self.new ≡ on_heap (model.added_tail list node) self.old) }
        ensures kept { OnErr result (self.new ≡ self.old) }
    {
        let (h, n) = self.objects.to_link(list, node)?;
        self.objects.add_tail(h, n);
        Ok(())
    }

    /// Puts a node before the first node of lower priority in a list, or last if there is none. It is refused if no
    /// list or no node begins at its address (Handle), and if the node is linked (Link). Autodoc exec.library/Enqueue;
    /// the refusals: project rule.
    pub fn enqueue(&mut self, list: u32, node: u32) -> Result<(), Refusal>
        ensures alert { alert_of result ≡ model.link_alert list node self.old.heap }
        ensures next { OnOk result (self.new ≡ on_heap (model.enqueued list node) self.old) }
        ensures kept { OnErr result (self.new ≡ self.old) }
    {
        let (h, n) = self.objects.to_link(list, node)?;
        self.objects.enqueue(h, n);
        Ok(())
    }

    /// Puts a node after a node of a list, or first for address 0. It is refused if no list or no node begins at its
    /// address (Handle), and if the node is linked or its predecessor is not in the list (Link). Autodoc
    /// exec.library/Insert; the refusals: project rule.
    pub fn insert(&mut self, list: u32, node: u32, pred: u32) -> Result<(), Refusal>
        ensures alert { alert_of result ≡ model.insert_alert list node pred self.old.heap }
        ensures next { OnOk result (self.new ≡ on_heap (model.inserted list node pred) self.old) }
        ensures kept { OnErr result (self.new ≡ self.old) }
    {
        let (h, n, p) = self.objects.to_insert(list, node, pred)?;
        self.objects.insert(h, n, p);
        Ok(())
    }

    /// Takes a node out of the list that has it. It is refused if no node begins at the address (Handle), and if the
    /// node is not linked (Link). Autodoc exec.library/Remove; the refusals: project rule.
    pub fn remove(&mut self, node: u32) -> Result<(), Refusal>
        ensures alert { alert_of result ≡ model.linked_alert node self.old.heap }
        ensures next { OnOk result (self.new ≡ on_heap (model.unlinked node) self.old) }
        ensures kept { OnErr result (self.new ≡ self.old) }
    {
        let (_, n) = self.objects.linked_node_at(node)?;
        self.objects.remove(n);
        Ok(())
    }

    /// Takes the first node out of a list and answers its address, or 0 for an empty list. It is refused if no list
    /// begins at the address (Handle). Autodoc exec.library/RemHead; the refusal: project rule.
    pub fn rem_head(&mut self, list: u32) -> Result<u32, Refusal>
        ensures alert { alert_of result ≡ model.list_alert list self.old.heap }
        ensures answer { IfOk result (λ answer. answer ≡ model.first_of list self.old.heap) }
        ensures next { OnOk result (self.new ≡ on_heap (model.removed_head list) self.old) }
        ensures kept { OnErr result (self.new ≡ self.old) }
    {
        let h = self.objects.list_at(list)?;
        let n = self.objects.rem_head(h);
        Ok(self.objects.address_or_0(n))
    }

    /// Takes the last node out of a list and answers its address, or 0 for an empty list. It is refused if no list
    /// begins at the address (Handle). Autodoc exec.library/RemTail; the refusal: project rule.
    pub fn rem_tail(&mut self, list: u32) -> Result<u32, Refusal>
        ensures alert { alert_of result ≡ model.list_alert list self.old.heap }
        ensures answer { IfOk result (λ answer. answer ≡ model.last_of list self.old.heap) }
        ensures next { OnOk result (self.new ≡ on_heap (model.removed_tail list) self.old) }
        ensures kept { OnErr result (self.new ≡ self.old) }
    {
        let h = self.objects.list_at(list)?;
        let n = self.objects.rem_tail(h);
        Ok(self.objects.address_or_0(n))
    }

    // ---- scanning

    /// Answers the address of the first node of a list, or 0 for an empty list. It is refused if no list begins at the
    /// address (Handle). RKM Libraries, Exec Lists and Queues: scanning a list; the refusal: project rule.
    pub fn first(&self, list: u32) -> Result<u32, Refusal>
        ensures alert { alert_of result ≡ model.list_alert list self.now.heap }
        ensures answer { IfOk result (λ answer. answer ≡ model.first_of list self.now.heap) }
    {
        let h = self.objects.list_at(list)?;
        Ok(self.objects.address_or_0(self.objects.first(h)))
    }

    /// Answers the address of the last node of a list, or 0 for an empty list. It is refused if no list begins at the
    /// address (Handle). RKM Libraries, Exec Lists and Queues: scanning a list; the refusal: project rule.
    pub fn last(&self, list: u32) -> Result<u32, Refusal>
        ensures alert { alert_of result ≡ model.list_alert list self.now.heap }
        ensures answer { IfOk result (λ answer. answer ≡ model.last_of list self.now.heap) }
    {
        let h = self.objects.list_at(list)?;
        Ok(self.objects.address_or_0(self.objects.last(h)))
    }

    /// Answers the address of the node after a linked one, or 0 if that is the last. It is refused if no node begins at
    /// the address (Handle), and if the node is not linked (Link). RKM Libraries, Exec Lists and Queues: `ln_Succ`; the
    /// refusals: project rule.
    pub fn succ(&self, node: u32) -> Result<u32, Refusal>
        ensures alert { alert_of result ≡ model.linked_alert node self.now.heap }
        ensures answer { IfOk result (λ answer. answer ≡ model.succ_of node self.now.heap) }
    {
        let (_, n) = self.objects.linked_node_at(node)?;
        Ok(self.objects.address_or_0(self.objects.succ(n)))
    }

    /// Answers the address of the node before a linked one, or 0 if that is the first. It is refused if no node begins
    /// at the address (Handle), and if the node is not linked (Link). RKM Libraries, Exec Lists and Queues: `ln_Pred`;
    /// the refusals: project rule.
    pub fn pred(&self, node: u32) -> Result<u32, Refusal>
        ensures alert { alert_of result ≡ model.linked_alert node self.now.heap }
        ensures answer { IfOk result (λ answer. answer ≡ model.pred_of node self.now.heap) }
    {
        let (_, n) = self.objects.linked_node_at(node)?;
        Ok(self.objects.address_or_0(self.objects.pred(n)))
    }

    /// Answers the address of the first node of a name in a list, or after a linked node, or 0; names compare byte for
    /// byte. It is refused if neither a list nor a node begins at the start (Handle), and if the node is not linked
    /// (Link). Autodoc exec.library/FindName; the refusals: project rule.
    pub fn find_name(&self, start: u32, name: &str) -> Result<u32, Refusal>
        ensures alert { alert_of result ≡ model.find_alert start self.now.heap }
        ensures answer { IfOk result (λ answer. answer ≡ model.found_node start name.now self.now.heap) }
    {
        let (h, after) = self.objects.to_search(start)?;
        Ok(
            self.objects
                .address_or_0(self.objects.find_name(h, after, name)),
        )
    }
}
