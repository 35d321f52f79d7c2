//! What is in a queue, one after another: the nodes of a list, the messages of a port, the tasks that wait for a
//! semaphore; and where a message, a request and a public port are. Nothing here changes any of them.
ghost use Rattle.std.specs.Prelude.{◌≡◌, ◌≢◌, ℕ, find, map, None, Some, IfSome, IsSome, IsTrue, MatchOption, option_map};
ghost use Rattle.execlist.specs.{Lists.is_named, Lists.part_from, Lists.sequence, Order.first, Pool.slot};
ghost use Rattle.msgport.specs.Ports.{is_message, is_port, messages_of};
ghost use Rattle.sigsem.specs.Semaphores.{is_sem, waiters_of};
ghost use Rattle.timerdev.specs.DueTimes.{due_of, due_view};
ghost use Rattle.execmodel.specs.Lists as lists;
ghost use Rattle.execmodel.specs.Ports as ports;
ghost use Rattle.execmodel.specs.Semaphores as semaphores;
ghost use Rattle.execheap.specs.{Numbered.IsKnown, Numbered.address_in, Numbered.message_places, Numbered.places, Numbered.shown_heap, Numbered.shown_timer, Queues.port_named, Queues.port_with};
ghost use Rattle.execheap.specs.declared.tag.Kind.TheVariants as variant;

use crate::heap::Heap;
use crate::objects::Objects;
use crate::tag::Kind;
use execlist::space::{HeaderId, ListSpace};
use execlist::walk::next_node;
use msgport::ports::{MsgId, PortId};
use sigsem::semaphore::TaskId;
use sigsem::sems::SemId;
use timerdev::timer::DueTime;

impl<S: ListSpace> Objects<S> {
    // ---- the nodes of a list

    /// The node after `after` in the list that begins at an address, or the first one for none.
    ///
    /// Source: RKM Libraries, Exec Lists and Queues: scanning a list.
    pub fn node_after(&self, list: u32, after: Option<u32>) -> Option<u32>
        ensures { result ≡ first (part_from after (lists.nodes_of list (shown_heap self.now))) }
    {
        match self.number_at(Kind::List, list) {
            None => None,
            Some(h) => self.node_in(h, after),
        }
    }

    // The same in the list of a number.
    fn node_in(&self, h: HeaderId, after: Option<u32>) -> Option<u32>
        requires { IsSome (slot (places variant.List self.now) h) }
        ensures { result ≡ first (part_from after (map (address_in (places variant.Node self.now)) (sequence self.now.sequences h))) }
    {
        self.facts();
        match after {
            None => self.address_if(Kind::Node, next_node(&self.space, h, None)),
            Some(node) => match self.number_at(Kind::Node, node) {
                None => None,
                Some(n) => self.address_if(Kind::Node, next_node(&self.space, h, Some(n))),
            },
        }
    }

    // The address of a live object of a kind, if there is one.
    fn address_if(&self, kind: Kind, number: Option<usize>) -> Option<u32>
        requires { IfSome number (λ n. IsSome (slot (places kind self.now) n)) }
        ensures { result ≡ option_map (address_in (places kind self.now)) number }
    {
        match number {
            None => None,
            Some(n) => Some(self.address_of(kind, n)),
        }
    }

    // ---- the messages of a port

    /// The message, or the request, after `after` in the port that begins at an address, or the first one for none.
    ///
    /// Source: RKM Libraries, Exec Messages and Ports: `mp_MsgList`.
    pub fn message_after(&self, port: u32, after: Option<u32>) -> Option<u32>
        ensures { result ≡ first (part_from after (ports.messages_of port (shown_heap self.now))) }
    {
        match self.number_at(Kind::Port, port) {
            None => None,
            Some(p) => self.message_in(p, after),
        }
    }

    // The same in the port of a number.
    fn message_in(&self, p: PortId, after: Option<u32>) -> Option<u32>
        requires { IsTrue (is_port p self.now.ports) }
        ensures { result ≡ first (part_from after (map (address_in (message_places self.now)) (messages_of p self.now.ports))) }
    {
        self.facts();
        match after {
            None => self.message_if(self.ports.message_after(p, None)),
            Some(message) => match self.message_number(message) {
                None => None,
                Some(m) => self.message_if(self.ports.message_after(p, Some(m))),
            },
        }
    }

    // The address of what may be in a port, if there is one.
    fn message_if(&self, m: Option<MsgId>) -> Option<u32>
        requires { IfSome m (λ m. IsSome (slot (message_places self.now) m)) }
        ensures { result ≡ option_map (address_in (message_places self.now)) m }
    {
        match m {
            None => None,
            Some(m) => Some(self.address_of_message(m)),
        }
    }

    // The number of the message, or of the request as a message, that begins at an address.
    fn message_number(&self, message: u32) -> Option<MsgId>
        ensures number { MatchOption result ((m : ℕ) → slot (message_places self.now) m ≢ Some message) (λ m. slot (message_places self.now) m ≡ Some message) }
        ensures live { IfSome result (λ m. IsTrue (is_message m self.now.ports)) }
        ensures known { IsKnown self.now }
    {
        match self.number_at(Kind::Message, message) {
            Some(m) => Some(m),
            None => match self.number_at(Kind::Request, message) {
                Some(r) => Some(self.message_of(r)),
                None => None,
            },
        }
    }

    /// The port that has a message, or the reply of a request, if one has it.
    ///
    /// Source: project rule: Exec cannot say.
    pub fn port_with(&self, message: u32) -> Option<u32>
        ensures { result ≡ port_with message (shown_heap self.now) }
    {
        match self.message_number(message) {
            None => None,
            Some(m) => self.port_if(self.ports.place(m)),
        }
    }

    // The address of a live port, if there is one.
    fn port_if(&self, p: Option<PortId>) -> Option<u32>
        requires { IfSome p (λ q. IsTrue (is_port q self.now.ports)) }
        ensures { result ≡ option_map (address_in (places variant.Port self.now)) p }
    {
        match p {
            None => None,
            Some(p) => Some(self.address_of_port(p)),
        }
    }

    /// The first public port of a name, if there is one.
    ///
    /// Source: autodoc exec.library/FindPort.
    pub fn public_port(&self, name: &str) -> Option<u32>
        ensures { result ≡ option_map (address_in (places variant.Port self.now)) (find (is_named self.now.ports.keys name.now) self.now.ports.public) }
    {
        self.port_if(self.ports.find_port(name))
    }

    // ---- the tasks that wait for a semaphore

    /// The task that waits after `after` for the semaphore that begins at an address, or the first one for none.
    ///
    /// Source: RKM Libraries, Exec Semaphores: `ss_WaitQueue`.
    pub fn waiter_after(&self, semaphore: u32, after: Option<TaskId>) -> Option<TaskId>
        ensures { result ≡ first (part_from after (semaphores.waiters_of semaphore (shown_heap self.now))) }
    {
        match self.number_at(Kind::Semaphore, semaphore) {
            None => None,
            Some(n) => self.waiter_in(n, after),
        }
    }

    // The same of the semaphore of a number.
    fn waiter_in(&self, n: SemId, after: Option<TaskId>) -> Option<TaskId>
        requires { IsTrue (is_sem n self.now.sems) }
        ensures { result ≡ first (part_from after (waiters_of n self.now.sems)) }
    {
        self.facts();
        match after {
            None => self.sems.waiter_after(n, None),
            Some(t) => {
                if t < self.tasks {
                    self.sems.waiter_after(n, Some(t))
                } else {
                    None
                }
            }
        }
    }

    // ---- the requests that wait

    /// The time for which a request waits, if it waits.
    ///
    /// Source: RKM Devices, timer device: TR_ADDREQUEST.
    pub fn due(&self, request: u32) -> Option<DueTime>
        ensures { option_map due_view result ≡ due_of request (shown_timer self.now) }
    {
        match self.number_at(Kind::Request, request) {
            None => None,
            Some(r) => self.timer.due_of(r),
        }
    }
}

impl<S: ListSpace> Heap<S> {
    /// The node after `after` in the list that begins at an address, or the first one for none; none at the end, and if
    /// there is no such list or `after` is not in it.
    ///
    /// Source: RKM Libraries, Exec Lists and Queues: scanning a list.
    pub fn node_after(&self, list: u32, after: Option<u32>) -> Option<u32>
        ensures { result ≡ first (part_from after (lists.nodes_of list self.now.heap)) }
    {
        self.objects.node_after(list, after)
    }

    /// The message, or the request, after `after` in the port that begins at an address, or the first one for none, in
    /// order of arrival; none at the end, and if there is no such port or it does not have `after`.
    ///
    /// Source: RKM Libraries, Exec Messages and Ports: `mp_MsgList`.
    pub fn message_after(&self, port: u32, after: Option<u32>) -> Option<u32>
        ensures { result ≡ first (part_from after (ports.messages_of port self.now.heap)) }
    {
        self.objects.message_after(port, after)
    }

    /// The port that has a message, or the reply of a request; none if no port has it.
    ///
    /// Source: project rule: Exec cannot say.
    pub fn port_with(&self, message: u32) -> Option<u32>
        ensures { result ≡ port_with message self.now.heap }
    {
        self.objects.port_with(message)
    }

    /// The first public port of a name, as FindPort finds it; none if there is none.
    ///
    /// Source: autodoc exec.library/FindPort.
    pub fn public_port(&self, name: &str) -> Option<u32>
        ensures { result ≡ port_named name.now self.now.public }
    {
        self.objects.public_port(name)
    }

    /// The task that waits after `after` for the semaphore that begins at an address, or the first one for none, in
    /// order of request; none at the end, and if there is no such semaphore or `after` does not wait for it.
    ///
    /// Source: RKM Libraries, Exec Semaphores: `ss_WaitQueue`.
    pub fn waiter_after(&self, semaphore: u32, after: Option<TaskId>) -> Option<TaskId>
        ensures { result ≡ first (part_from after (semaphores.waiters_of semaphore self.now.heap)) }
    {
        self.objects.waiter_after(semaphore, after)
    }

    /// The time for which a request waits; none if it does not wait.
    ///
    /// Source: RKM Devices, timer device: TR_ADDREQUEST.
    pub fn due(&self, request: u32) -> Option<DueTime>
        ensures { option_map due_view result ≡ due_of request self.now.timer }
    {
        self.objects.due(request)
    }
}
