//! Ports and messages: by number, with the blocks in which they live; how they are found by address; and the calls by
//! address.
ghost use Rattle.std.specs.Prelude.{◌≡◌, ◌<◌, ◌≤◌, not, [], None, Some, IfSome, IsSome, IsTrue, ◌≢◌, IfOk, option_map, OnErr, OnOk, find};
ghost use Rattle.execlist.specs.{Order.first, Lists.home, Pool.slot};
ghost use Rattle.msgport.specs.Ports.{has_messages, is_message, is_port, is_public, message_at, messages_of, new_message, port_at, made_private, made_public, nt_freemsg, nt_message, nt_replymsg, posted, taken_off, typed, with_message, with_port};
ghost use Rattle.msgport.specs.Port.{arrival_action, new_port};
ghost use Rattle.execmodel.specs.{State.Message, State.MsgPort, State.on_heap, Memory.freed, Memory.placed, LowMemory.after_asking_for_object, Objects.place_for_object, Lists.or_none};
ghost use Rattle.execheap.specs.{Numbered.message_places, Numbered.places, Numbered.shown_memory, Numbered.IsKnown, Numbered.address_in, Numbered.shown_heap, Changes.on_ports, Refusals.alert_of, Listing.listed, Listing.replied_by, Listing.replying};
ghost use Rattle.std.specs.Option.{ForSome};
ghost use Rattle.execmodel.specs.Ports as model;
ghost use Rattle.execheap.specs.declared.tag.Kind.TheVariants as variant;

use crate::heap::Heap;
use crate::objects::Objects;
use crate::refusal::Refusal;
use crate::tag::Kind;
use execlist::key::Name;
use execlist::space::ListSpace;
use msgport::action::{Action, PortAction, TaskId};
use msgport::ports::{MsgId, PortId, Ports};

impl<S: ListSpace> Objects<S> {
    /// The ports and the messages.
    pub fn ports(&self) -> &Ports<S>
        ensures { result.now ≡ self.now.ports }
    {
        &self.ports
    }

    // ---- numbers and addresses

    /// The address of what may be in a port: of a live message, or of a live request, whose numbers as messages are
    /// after.
    pub fn address_of_message(&self, m: MsgId) -> u32
        requires { IsSome (slot (message_places self.now) m) }
        ensures { slot (message_places self.now) m ≡ Some result }
    {
        self.facts();
        let pool = self.table.pool();
        if m < pool {
            self.address_of(Kind::Message, m)
        } else {
            self.address_of(Kind::Request, m - pool)
        }
    }

    /// The address of a live port.
    pub fn address_of_port(&self, p: PortId) -> u32
        requires { IsTrue (is_port p self.now.ports) }
        ensures { slot (places variant.Port self.now) p ≡ Some result }
    {
        self.facts();
        self.address_of(Kind::Port, p)
    }

    // ---- made and freed

    /// A new port of a task, which signals it by the signal of that number, if the pool has one left and its block
    /// fits, at once or after libraries were asked for memory: its address.
    ///
    /// Source: autodoc exec.library/CreateMsgPort.
    pub fn make_port(&mut self, task: TaskId, bit: u32) -> Option<u32>
        requires own { 16 ≤ bit }
        requires signal { bit < 32 }
        ensures address { result ≡ place_for_object model.is_port model.port_size (after_asking_for_object model.is_port model.port_size (shown_memory self.old)) }
        ensures next { shown_memory self.new ≡ placed model.port_size (MsgPort (new_port task bit) []) result (after_asking_for_object model.is_port model.port_size (shown_memory self.old)) }
    {
        self.ports.facts();
        let (_, port) = self.table.make(Kind::Port)?;
        self.ports.create_port(task, bit).unwrap();
        Some(port)
    }

    /// A new message with a reply port, or 0, and a word, if the pool has one left and its block fits, at once or after
    /// libraries were asked for memory: its address.
    ///
    /// Source: RKM Libraries, Exec Messages and Ports: messages; that it takes the memory is a project rule.
    pub fn make_message(&mut self, reply: u32, word: u32) -> Option<u32>
        ensures address { result ≡ place_for_object model.is_message model.message_size (after_asking_for_object model.is_message model.message_size (shown_memory self.old)) }
        ensures next { shown_memory self.new ≡ placed model.message_size (Message (new_message reply word)) result (after_asking_for_object model.is_message model.message_size (shown_memory self.old)) }
    {
        self.ports.facts();
        let (_, message) = self.table.make(Kind::Message)?;
        self.ports.make_msg(reply, word).unwrap();
        Some(message)
    }

    /// Frees a port that has no message and is not public, and answers its task and the number of its signal.
    ///
    /// Source: autodoc exec.library/DeleteMsgPort.
    pub fn free_port(&mut self, p: PortId, address: u32) -> (TaskId, u32)
        requires live { slot (places variant.Port self.old) p ≡ Some address }
        requires empty { IsTrue (not (has_messages p self.old.ports)) }
        requires private { IsTrue (not (is_public p self.old.ports)) }
        ensures owner { result ≡ ((port_at p self.old.ports).task, (port_at p self.old.ports).bit) }
        ensures own { 16 ≤ result.1 }
        ensures signal { result.1 < 32 }
        ensures next { shown_memory self.new ≡ freed address (shown_memory self.old) }
    {
        self.ports.facts();
        self.table.free(Kind::Port, p, address);
        self.ports.delete_port(p).unwrap()
    }

    /// Frees a message that is in no port.
    pub fn free_message(&mut self, m: MsgId, address: u32)
        requires live { slot (places variant.Message self.old) m ≡ Some address }
        requires loose { home self.old.ports.places m ≡ None }
        ensures { shown_memory self.new ≡ freed address (shown_memory self.old) }
    {
        self.ports.facts();
        self.table.free(Kind::Message, m, address);
        self.ports.free_msg(m).unwrap();
    }

    // ---- putting and taking

    /// Puts a message that is in no port at a port, as one of type NT_MESSAGE, and answers what is to be done for it.
    ///
    /// Source: autodoc exec.library/PutMsg.
    pub fn put(&mut self, p: PortId, m: MsgId) -> Action
        requires port { IsTrue (is_port p self.old.ports) }
        requires message { IsSome (slot (places variant.Message self.old) m) }
        requires loose { home self.old.ports.places m ≡ None }
        ensures answer { result ≡ arrival_action (port_at p self.old.ports) }
        ensures next { self.new ≡ on_ports (posted nt_message p m) self.old }
    {
        self.table.facts();
        self.ports.put(p, m).unwrap()
    }

    /// Puts a message that is in no port at a port, as one of type NT_REPLYMSG, and answers what is to be done for it.
    ///
    /// Source: autodoc exec.library/ReplyMsg.
    pub fn reply(&mut self, p: PortId, m: MsgId) -> Action
        requires port { IsTrue (is_port p self.old.ports) }
        requires message { IsSome (slot (places variant.Message self.old) m) }
        requires loose { home self.old.ports.places m ≡ None }
        ensures answer { result ≡ arrival_action (port_at p self.old.ports) }
        ensures next { self.new ≡ on_ports (posted nt_replymsg p m) self.old }
    {
        self.table.facts();
        self.ports.reply(p, m).unwrap()
    }

    /// Gives a message that is in no port the type NT_FREEMSG.
    ///
    /// Source: autodoc exec.library/ReplyMsg.
    pub fn reply_none(&mut self, m: MsgId)
        requires message { IsSome (slot (places variant.Message self.old) m) }
        requires loose { home self.old.ports.places m ≡ None }
        ensures { self.new ≡ on_ports (typed nt_freemsg m) self.old }
    {
        self.table.facts();
        self.ports.reply_none(m).unwrap();
    }

    /// Takes the first message off a port, if it has one.
    ///
    /// Source: autodoc exec.library/GetMsg.
    pub fn take_message(&mut self, p: PortId) -> Option<MsgId>
        requires { IsTrue (is_port p self.old.ports) }
        ensures value { result ≡ first (messages_of p self.old.ports) }
        ensures next { self.new ≡ on_ports (taken_off p (first (messages_of p self.old.ports))) self.old }
        ensures live { IfSome result (λ m. IsSome (slot (message_places self.new) m)) }
    {
        self.facts();
        self.ports.get(p)
    }

    // ---- public ports

    /// Makes a port public that is not.
    ///
    /// Source: autodoc exec.library/AddPort.
    pub fn add_port(&mut self, p: PortId, name: Name, pri: i8)
        requires live { IsTrue (is_port p self.old.ports) }
        requires private { IsTrue (not (is_public p self.old.ports)) }
        ensures { self.new ≡ on_ports (made_public p name.bytes pri) self.old }
    {
        self.ports.add_port(p, name, pri).unwrap();
    }

    /// Makes a public port public no more.
    ///
    /// Source: autodoc exec.library/RemPort.
    pub fn rem_port(&mut self, p: PortId)
        requires live { IsTrue (is_port p self.old.ports) }
        requires public { IsTrue (is_public p self.old.ports) }
        ensures { self.new ≡ on_ports (made_private p) self.old }
    {
        self.ports.rem_port(p).unwrap();
    }

    // ---- one port or message

    /// Gives a port another action.
    ///
    /// Source: RKM Libraries, Exec Messages and Ports: `mp_Flags`.
    pub fn set_action(&mut self, p: PortId, action: PortAction)
        requires { IsTrue (is_port p self.old.ports) }
        ensures { self.new ≡ on_ports (with_port p (record (port_at p self.old.ports) { action = action })) self.old }
    {
        self.ports.set_action(p, action);
    }

    /// Gives a message another word.
    pub fn set_word(&mut self, m: MsgId, word: u32)
        requires { IsTrue (is_message m self.old.ports) }
        ensures { self.new ≡ on_ports (with_message m (record (message_at m self.old.ports) { word = word })) self.old }
    {
        self.ports.set_word(m, word);
    }

    // ---- found by address; or why the call is refused

    /// The port that begins at an address.
    pub fn port_at(&self, port: u32) -> Result<PortId, Refusal>
        ensures alert { alert_of result ≡ model.port_alert port (shown_heap self.now) }
        ensures found { IfOk result (λ p. slot (places variant.Port self.now) p ≡ Some port) }
        ensures live { IfOk result (λ p. IsTrue (is_port p self.now.ports)) }
        ensures known { IsKnown self.now }
    {
        match self.number_at(Kind::Port, port) {
            Some(p) => Ok(p),
            None => Err(Refusal::Handle),
        }
    }

    /// The port that begins at an address, which has no message, is not public, and is the reply port of no request
    /// that is in progress.
    pub fn port_to_delete(&self, port: u32) -> Result<PortId, Refusal>
        ensures alert { alert_of result ≡ model.delete_alert port (shown_memory self.now) }
        ensures found { IfOk result (λ p. slot (places variant.Port self.now) p ≡ Some port) }
        ensures empty { IfOk result (λ p. IsTrue (not (has_messages p self.now.ports))) }
        ensures private { IfOk result (λ p. IsTrue (not (is_public p self.now.ports))) }
        ensures known { IsKnown self.now }
    {
        let p = self.port_at(port)?;
        match self.ports().first(p) {
            Some(_) => Err(Refusal::Port),
            None => {
                if self.ports().is_public(p) || self.requests().under_way(port) {
                    Err(Refusal::Port)
                } else {
                    Ok(p)
                }
            }
        }
    }

    /// The port that begins at an address, which is not public and is to be so with that priority.
    pub fn private_port_at(&self, port: u32, pri: i8) -> Result<PortId, Refusal>
        ensures alert { alert_of result ≡ model.add_port_alert port pri (shown_memory self.now) }
        ensures found { IfOk result (λ p. slot (places variant.Port self.now) p ≡ Some port) }
        ensures live { IfOk result (λ p. IsTrue (is_port p self.now.ports)) }
        ensures private { IfOk result (λ p. IsTrue (not (is_public p self.now.ports))) }
        ensures known { IsKnown self.now }
    {
        let p = self.port_at(port)?;
        let public = self.ports().is_public(p);
        if public { Err(Refusal::Link) } else { Ok(p) }
    }

    /// The port that begins at an address, which is public.
    pub fn public_port_at(&self, port: u32) -> Result<PortId, Refusal>
        ensures alert { alert_of result ≡ model.rem_port_alert port (shown_memory self.now) }
        ensures found { IfOk result (λ p. slot (places variant.Port self.now) p ≡ Some port) }
        ensures live { IfOk result (λ p. IsTrue (is_port p self.now.ports)) }
        ensures public { IfOk result (λ p. IsTrue (is_public p self.now.ports)) }
        ensures known { IsKnown self.now }
    {
        let p = self.port_at(port)?;
        let listed = self.ports().is_public(p);
        if listed { Ok(p) } else { Err(Refusal::Link) }
    }

    /// The port that begins at an address and signals a task, and the number of its signal.
    pub fn port_to_wait_at(&self, task: TaskId, port: u32) -> Result<(PortId, u32), Refusal>
        ensures alert { alert_of result ≡ model.wait_alert task port (shown_heap self.now) }
        ensures found { IfOk result (λ pair. slot (places variant.Port self.now) pair.0 ≡ Some port) }
        ensures live { IfOk result (λ pair. IsTrue (is_port pair.0 self.now.ports)) }
        ensures bit { IfOk result (λ pair. pair.1 ≡ (port_at pair.0 self.now.ports).bit) }
        ensures signal { IfOk result (λ pair. pair.1 < 32) }
        ensures known { IsKnown self.now }
    {
        let p = self.port_at(port)?;
        match self.ports().wait_bit(p, task) {
            Some(bit) => Ok((p, bit)),
            None => Err(Refusal::Port),
        }
    }

    /// The reply port at an address: none for 0, or else the port that begins there.
    pub fn reply_port_at(&self, reply: u32) -> Result<Option<PortId>, Refusal>
        ensures alert { alert_of result ≡ model.reply_port_alert reply (shown_heap self.now) }
        ensures none { IfOk result (λ p. p ≡ None → reply ≡ 0) }
        ensures some { IfOk result (λ p. ForSome p (λ q. reply ≢ 0)) }
        ensures found { IfOk result (λ p. ForSome p (λ q. slot (places variant.Port self.now) q ≡ Some reply)) }
        ensures live { IfOk result (λ p. ForSome p (λ q. IsTrue (is_port q self.now.ports))) }
    {
        if reply == 0 {
            return Ok(None);
        }
        Ok(Some(self.port_at(reply)?))
    }

    /// The message that begins at an address.
    pub fn message_at(&self, message: u32) -> Result<MsgId, Refusal>
        ensures alert { alert_of result ≡ model.message_alert message (shown_heap self.now) }
        ensures found { IfOk result (λ m. slot (places variant.Message self.now) m ≡ Some message) }
        ensures live { IfOk result (λ m. IsTrue (is_message m self.now.ports)) }
        ensures known { IsKnown self.now }
    {
        match self.number_at(Kind::Message, message) {
            Some(m) => Ok(m),
            None => Err(Refusal::Handle),
        }
    }

    /// The message that begins at an address, which is in no port.
    pub fn unqueued_message_at(&self, message: u32) -> Result<MsgId, Refusal>
        ensures alert { alert_of result ≡ model.unqueued_alert message (shown_heap self.now) }
        ensures found { IfOk result (λ m. slot (places variant.Message self.now) m ≡ Some message) }
        ensures live { IfOk result (λ m. IsTrue (is_message m self.now.ports)) }
        ensures loose { IfOk result (λ m. home self.now.ports.places m ≡ None) }
        ensures known { IsKnown self.now }
    {
        let m = self.message_at(message)?;
        let linked = self.ports().is_linked(m);
        if linked { Err(Refusal::Link) } else { Ok(m) }
    }

    /// The port that begins at an address, and the message that begins at another and is in no port.
    pub fn to_put(&self, port: u32, message: u32) -> Result<(PortId, MsgId), Refusal>
        ensures alert { alert_of result ≡ model.put_alert port message (shown_heap self.now) }
        ensures port { IfOk result (λ pair. slot (places variant.Port self.now) pair.0 ≡ Some port) }
        ensures live_port { IfOk result (λ pair. IsTrue (is_port pair.0 self.now.ports)) }
        ensures message { IfOk result (λ pair. slot (places variant.Message self.now) pair.1 ≡ Some message) }
        ensures live_message { IfOk result (λ pair. IsTrue (is_message pair.1 self.now.ports)) }
        ensures loose { IfOk result (λ pair. home self.now.ports.places pair.1 ≡ None) }
        ensures known { IsKnown self.now }
    {
        let p = self.port_at(port)?;
        let m = self.unqueued_message_at(message)?;
        Ok((p, m))
    }

    /// The message that begins at an address and is in no port, and its reply port, or none.
    pub fn to_reply(&self, message: u32) -> Result<(MsgId, Option<PortId>), Refusal>
        ensures alert { alert_of result ≡ model.reply_alert message (shown_heap self.now) }
        ensures message { IfOk result (λ pair. slot (places variant.Message self.now) pair.0 ≡ Some message) }
        ensures live_message { IfOk result (λ pair. IsTrue (is_message pair.0 self.now.ports)) }
        ensures loose { IfOk result (λ pair. home self.now.ports.places pair.0 ≡ None) }
        ensures none { IfOk result (λ pair. pair.1 ≡ None → (model.content_of message (shown_heap self.now)).reply ≡ 0) }
        ensures some { IfOk result (λ pair. ForSome pair.1 (λ p. (model.content_of message (shown_heap self.now)).reply ≢ 0)) }
        ensures reply { IfOk result (λ pair. ForSome pair.1 (λ p. slot (places variant.Port self.now) p ≡ Some (model.content_of message (shown_heap self.now)).reply)) }
        ensures live_port { IfOk result (λ pair. ForSome pair.1 (λ p. IsTrue (is_port p self.now.ports))) }
        ensures known { IsKnown self.now }
    {
        let m = self.unqueued_message_at(message)?;
        let p = self.reply_port_at(self.ports().reply_port(m))?;
        Ok((m, p))
    }

    /// The address of what is in a port, a live message or a request, or 0 for none.
    pub fn message_or_0(&self, m: Option<MsgId>) -> u32
        requires { ForSome m (λ n. IsSome (slot (message_places self.now) n)) }
        ensures { result ≡ or_none (option_map (address_in (message_places self.now)) m) }
    {
        match m {
            Some(m) => self.address_of_message(m),
            None => 0,
        }
    }

    /// The address of a live port, or 0 for none.
    pub fn port_or_0(&self, p: Option<PortId>) -> u32
        requires { IfSome p (λ q. IsTrue (is_port q self.now.ports)) }
        ensures { result ≡ or_none (option_map (address_in (places variant.Port self.now)) p) }
    {
        match p {
            Some(p) => self.address_of_port(p),
            None => 0,
        }
    }
}

impl<S: ListSpace> Heap<S> {
    // ---- ports made and freed

    /// Makes a port of a task, which signals it by the signal of that number (16 to 31), and answers its address; none
    /// if the pool has no port left, which asks nothing, or its block fits nowhere, even after libraries were asked for
    /// memory. It has no message and is not public (autodoc exec.library/CreateMsgPort).
    pub fn new_port(&mut self, task: TaskId, bit: u32) -> Option<u32>
        requires own { 16 ≤ bit }
        requires signal { bit < 32 }
        ensures address { result ≡ place_for_object model.is_port model.port_size (after_asking_for_object model.is_port model.port_size self.old) }
        ensures next { self.new ≡ placed model.port_size (MsgPort (new_port task bit) []) result (after_asking_for_object model.is_port model.port_size self.old) }
    {
        self.objects.make_port(task, bit)
    }

    /// Answers whether a port begins at an address. Project rule.
    pub fn is_port(&self, port: u32) -> bool
        ensures { result ≡ model.is_port_at port self.now.heap }
    {
        self.objects.number_at(Kind::Port, port).is_some()
    }

    /// Frees a port, and answers its task and the number of its signal. It is refused if no port begins at the address
    /// (Handle), and if the port has messages, is public, or is the reply port of a request that is in progress (Port).
    /// Autodoc exec.library/DeleteMsgPort; the refusals: project rule.
    pub fn delete_port(&mut self, port: u32) -> Result<(TaskId, u32), Refusal>
        ensures alert { alert_of result ≡ model.delete_alert port self.old }
        ensures task { IfOk result (λ owner. owner.0 ≡ (model.port_of port self.old.heap).task) }
        ensures bit { IfOk result (λ owner. owner.1 ≡ (model.port_of port self.old.heap).bit) }
        ensures own { IfOk result (λ owner. 16 ≤ owner.1) }
        ensures signal { IfOk result (λ owner. owner.1 < 32) }
        ensures next { OnOk result (self.new ≡ freed port self.old) }
        ensures kept { OnErr result (self.new ≡ self.old) }
    {
        let p = self.objects.port_to_delete(port)?;
        Ok(self.objects.free_port(p, port))
    }

    // ---- public ports

    /// Makes a port public under a name, before the first public port of lower priority. It is refused if no port
    /// begins at the address (Handle), and if the port is public already (Link). Autodoc exec.library/AddPort; the
    /// refusals: project rule.
    pub fn add_port(&mut self, port: u32, name: Name, pri: i8) -> Result<(), Refusal>
        ensures alert { alert_of result ≡ model.add_port_alert port pri self.old }
        ensures next { OnOk result (self.new ≡ listed port name.bytes pri self.old) }
        ensures kept { OnErr result (self.new ≡ self.old) }
    {
        let p = self.objects.private_port_at(port, pri)?;
        self.objects.add_port(p, name, pri);
        Ok(())
    }

    /// Makes a port public no more. It is refused if no port begins at the address (Handle), and if the port is not
    /// public (Link). Autodoc exec.library/RemPort; the refusals: project rule.
    pub fn rem_port(&mut self, port: u32) -> Result<(), Refusal>
        ensures alert { alert_of result ≡ model.rem_port_alert port self.old }
        ensures next { OnOk result (self.new ≡ model.made_private port self.old) }
        ensures kept { OnErr result (self.new ≡ self.old) }
    {
        let p = self.objects.public_port_at(port)?;
        self.objects.rem_port(p);
        Ok(())
    }

    /// Answers the address of the first public port of a name, or 0; names compare byte for byte. The public ports are
    /// by priority, and those of one priority in the order in which they were made public. Autodoc
    /// exec.library/FindPort.
    pub fn find_port(&self, name: &str) -> u32
        ensures { result ≡ model.port_or_none (find (model.is_called name.now) self.now.public) }
    {
        self.objects.port_or_0(self.objects.ports().find_port(name))
    }

    /// Gives a port another action. It is refused if no port begins at the address (Handle).
    /// RKM Libraries, Exec Messages and Ports: `mp_Flags`; the refusal: project rule.
    pub fn set_action(&mut self, port: u32, action: PortAction) -> Result<(), Refusal>
        ensures alert { alert_of result ≡ model.port_alert port self.old.heap }
        ensures next { OnOk result (self.new ≡ on_heap (model.with_action action port) self.old) }
        ensures kept { OnErr result (self.new ≡ self.old) }
    {
        let p = self.objects.port_at(port)?;
        self.objects.set_action(p, action);
        Ok(())
    }

    // ---- messages made and freed

    /// Makes a message of type 0 with a reply port, 0 for none, and a word, which is in no port, and answers its
    /// address; none if the pool has no message left, which asks nothing, or its block fits nowhere, even after
    /// libraries were asked for memory. It is refused if the reply port is not 0 and no port begins there (Handle).
    /// Project rule.
    pub fn new_message(&mut self, reply: u32, word: u32) -> Result<Option<u32>, Refusal>
        ensures alert { alert_of result ≡ model.reply_port_alert reply self.old.heap }
        ensures address { IfOk result (λ place. place ≡ place_for_object model.is_message model.message_size (after_asking_for_object model.is_message model.message_size self.old)) }
        ensures next { IfOk result (λ place. self.new ≡ placed model.message_size (Message (new_message reply word)) place (after_asking_for_object model.is_message model.message_size self.old)) }
        ensures kept { OnErr result (self.new ≡ self.old) }
    {
        self.objects.reply_port_at(reply)?;
        Ok(self.objects.make_message(reply, word))
    }

    /// Frees a message. It is refused if no message begins at the address (Handle), and if a port has it (Link).
    /// Project rule.
    pub fn free_message(&mut self, message: u32) -> Result<(), Refusal>
        ensures alert { alert_of result ≡ model.unqueued_alert message self.old.heap }
        ensures next { OnOk result (self.new ≡ freed message self.old) }
        ensures kept { OnErr result (self.new ≡ self.old) }
    {
        let m = self.objects.unqueued_message_at(message)?;
        self.objects.free_message(m, message);
        Ok(())
    }

    // ---- what a message holds

    /// Answers the word of a message. It is refused if no message begins at the address (Handle). Project rule.
    pub fn word(&self, message: u32) -> Result<u32, Refusal>
        ensures alert { alert_of result ≡ model.message_alert message self.now.heap }
        ensures answer { IfOk result (λ word. word ≡ (model.content_of message self.now.heap).word) }
    {
        let m = self.objects.message_at(message)?;
        Ok(self.objects.ports().word(m))
    }

    /// Gives a message another word. It is refused if no message begins at the address (Handle). Project rule.
    pub fn set_word(&mut self, message: u32, word: u32) -> Result<(), Refusal>
        ensures alert { alert_of result ≡ model.message_alert message self.old.heap }
        ensures next { OnOk result (self.new ≡ on_heap (model.with_message_word message word) self.old) }
        ensures kept { OnErr result (self.new ≡ self.old) }
    {
        let m = self.objects.message_at(message)?;
        self.objects.set_word(m, word);
        Ok(())
    }

    /// Answers the type of a message: 0 for a new one, NT_MESSAGE, NT_REPLYMSG or NT_FREEMSG. It is refused if no
    /// message begins at the address (Handle). RKM Libraries, Exec Messages and Ports: `ln_Type`; the refusal: project
    /// rule.
    pub fn kind(&self, message: u32) -> Result<u8, Refusal>
        ensures alert { alert_of result ≡ model.message_alert message self.now.heap }
        ensures answer { IfOk result (λ kind. kind ≡ (model.content_of message self.now.heap).kind) }
    {
        let m = self.objects.message_at(message)?;
        Ok(self.objects.ports().kind(m))
    }

    // ---- putting and replying

    /// Puts a message at a port, after those that it has, as one of type NT_MESSAGE, and answers what is to be done for
    /// it. It is refused if no port or no message begins at its address (Handle), and if a port has the message already
    /// (Link). Autodoc exec.library/PutMsg; the refusals: project rule.
    pub fn put_message(&mut self, port: u32, message: u32) -> Result<Action, Refusal>
        ensures alert { alert_of result ≡ model.put_alert port message self.old.heap }
        ensures answer { IfOk result (λ action. action ≡ arrival_action (model.port_of port self.old.heap)) }
        ensures next { OnOk result (self.new ≡ on_heap (model.posted nt_message port message) self.old) }
        ensures kept { OnErr result (self.new ≡ self.old) }
    {
        let (p, m) = self.objects.to_put(port, message)?;
        Ok(self.objects.put(p, m))
    }

    /// Puts a message at its reply port, the one that begins at that address now, as one of type NT_REPLYMSG, and
    /// answers what is to be done for it; one without a reply port gets the type NT_FREEMSG. It is refused if no
    /// message begins at the address (Handle), if a port has it already (Link), and if it has a reply port and no port
    /// begins there (Handle). Autodoc exec.library/ReplyMsg; the refusals: project rule.
    pub fn reply_message(&mut self, message: u32) -> Result<Action, Refusal>
        ensures alert { alert_of result ≡ model.reply_alert message self.old.heap }
        ensures answer { IfOk result (λ action. action ≡ replying message self.old.heap) }
        ensures next { OnOk result (self.new ≡ on_heap (replied_by message) self.old) }
        ensures kept { OnErr result (self.new ≡ self.old) }
    {
        let (m, reply) = self.objects.to_reply(message)?;
        match reply {
            Some(p) => Ok(self.objects.reply(p, m)),
            None => {
                self.objects.reply_none(m);
                Ok(Action::Nothing)
            }
        }
    }

    // ---- taking and waiting

    /// Takes what is first in a port, a message or a request that is replied, and answers its address, or 0 if there is
    /// none. It is refused if no port begins at the address (Handle). Autodoc exec.library/GetMsg; the refusal: project
    /// rule.
    pub fn take_message(&mut self, port: u32) -> Result<u32, Refusal>
        ensures alert { alert_of result ≡ model.port_alert port self.old.heap }
        ensures answer { IfOk result (λ message. message ≡ or_none (first (model.messages_of port self.old.heap))) }
        ensures next { OnOk result (self.new ≡ on_heap (model.taken_off port) self.old) }
        ensures none { OnOk result (first (model.messages_of port self.old.heap) ≡ None → self.new ≡ self.old) }
        ensures kept { OnErr result (self.new ≡ self.old) }
    {
        let p = self.objects.port_at(port)?;
        let m = self.objects.take_message(p);
        Ok(self.objects.message_or_0(m))
    }

    /// Answers the address of what is first in a port at which a task may wait, a message or a request that is replied,
    /// or none, and the number of the port's signal (0 to 31). It is refused if no port begins at the address (Handle),
    /// and if the port does not signal the task (Port). Autodoc exec.library/WaitPort: what it answers; the refusals:
    /// project rule.
    pub fn message_to_wait_for(
        &self,
        task: TaskId,
        port: u32,
    ) -> Result<(Option<u32>, u32), Refusal>
        ensures alert { alert_of result ≡ model.wait_alert task port self.now.heap }
        ensures message { IfOk result (λ pair. pair.0 ≡ first (model.messages_of port self.now.heap)) }
        ensures bit { IfOk result (λ pair. pair.1 ≡ (model.port_of port self.now.heap).bit) }
        ensures signal { IfOk result (λ pair. pair.1 < 32) }
    {
        let (p, bit) = self.objects.port_to_wait_at(task, port)?;
        match self.objects.ports().first(p) {
            Some(m) => Ok((Some(self.objects.address_of_message(m)), bit)),
            None => Ok((None, bit)),
        }
    }
}
