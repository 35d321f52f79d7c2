//! The ports and the messages of a machine, by number.
ghost use Rattle.std.specs.Prelude.{◌≡◌, ℕ, ◌<◌, ◌≤◌, [], length, replicate, false, not, find, is_ok, Some, None, IfOk, IfSome, IsSome, IsTrue, ok_or};
ghost use Rattle.execlist.specs.{Order.first, Lists.blank, Lists.home, Lists.is_named, Pool.IsStocked, Pool.all_free, Pool.next_number, Answers.fault_or, Answers.kept_or};
ghost use Rattle.msgport.specs.Ports.{IsSoundPorts, is_port, is_message, is_queued, is_held, is_linked, is_public, has_messages, port_at, message_at, messages_of, linked_fault, post_fault, reply_fault, queued_fault, private_fault, public_fault, delete_fault, no_ports, all_freed, port_made, message_made, port_freed, message_freed, with_port, with_message, typed, appended, posted, held, let_go, taken_out, taken_off, made_public, made_private, nt_message, nt_freemsg, nt_replymsg};
ghost use Rattle.msgport.specs.Port.{arrival_action, wait_bit};

mod readers;

use crate::action::{Action, PortAction, TaskId};
use crate::fault::PortFault;
use crate::message::{Message, NT_FREEMSG, NT_MESSAGE, NT_REPLYMSG, NT_UNKNOWN};
use crate::port::Port;
use execlist::key::Name;
use execlist::pool::Pool;
use execlist::space::ListSpace;
use std::alloc::{AllocError, Global};
use std::marker::Model;

/// The number of a port, from 0.
pub type PortId = usize;

/// The number of a message, from 0.
pub type MsgId = usize;

/// The only header of the public ports.
const PUBLIC: usize = 0;

/// The only header of the messages that are held.
const HELD: usize = 0;

/// Message ports and messages, and how they are linked. A message is nowhere, in one port, or held.
///
/// All room is made by `new`; no other call takes memory, and none but `reset` looks at all ports or all messages.
/// RKM Libraries, Exec Messages and Ports.
#[derive(Drop)]
pub struct Ports<S: ListSpace> {
    ports: Pool<Port>,
    messages: Pool<Message>,
    queues: S,
    held: S,
    public: S,
}

impl<S: ListSpace> Model for Ports<S> {
    ghost use Rattle.std.specs.Prelude.{length};
    ghost use Rattle.execlist.specs.Lists.{sequence};
    ghost use Rattle.msgport.specs.Ports.{KeepsPorts, MessagePorts};

    ghost Value = { MessagePorts };

    ghost view = { λ q. record {
      ports = q.ports;
      messages = q.messages;
      queues = S.sequences q.queues;
      places = S.homes q.queues;
      holding = sequence (S.sequences q.held) 0;
      public = sequence (S.sequences q.public) 0;
      keys = S.keys q.public;
    } };

    ghost invariant = { λ q. KeepsPorts (length (S.sequences q.public)) (S.homes q.public) (length (S.sequences q.held)) (S.homes q.held) (record {
      ports = q.ports;
      messages = q.messages;
      queues = S.sequences q.queues;
      places = S.homes q.queues;
      holding = sequence (S.sequences q.held) 0;
      public = sequence (S.sequences q.public) 0;
      keys = S.keys q.public;
    }) };
}

/// The numbers of that many ports and messages, all of them free.
fn pools_of(
    alloc: Global,
    ports: usize,
    msgs: usize,
) -> Result<(Pool<Port>, Pool<Message>), AllocError>
    ensures ports { IfOk result (λ pools. pools.0 ≡ all_free ports) }
    ensures messages { IfOk result (λ pools. pools.1 ≡ all_free msgs) }
{
    let numbers = Pool::new(alloc, ports)?;
    let messages = Pool::new(alloc, msgs)?;
    Ok((numbers, messages))
}

/// The header of the messages that are held and that of the public ports, both empty.
fn headers_of<S: ListSpace>(alloc: Global, ports: usize, msgs: usize) -> Result<(S, S), AllocError>
    requires few_ports { ports ≤ 4096 }
    requires few_messages { msgs ≤ 4096 }
    ensures held { IfOk result (λ both. S.sequences both.0 ≡ replicate 1 []) }
    ensures none_held { IfOk result (λ both. S.homes both.0 ≡ replicate msgs None) }
    ensures public { IfOk result (λ both. S.sequences both.1 ≡ replicate 1 []) }
    ensures none_public { IfOk result (λ both. S.homes both.1 ≡ replicate ports None) }
    ensures keys { IfOk result (λ both. S.keys both.1 ≡ replicate ports blank) }
{
    let held = S::new(alloc, 1, msgs)?;
    let public = S::new(alloc, 1, ports)?;
    Ok((held, public))
}

impl<S: ListSpace> Ports<S> {
    /// Room for that many ports and messages, at most 4,096 of each. There is no port and no message yet.
    ///
    /// An error means that memory is refused.
    pub fn new(alloc: Global, ports: usize, msgs: usize) -> Result<Self, AllocError>
        requires few_ports { ports ≤ 4096 }
        requires few_messages { msgs ≤ 4096 }
        ensures { IfOk result (λ q. q ≡ no_ports ports msgs) }
    {
        let (numbers, messages) = pools_of(alloc, ports, msgs)?;
        let queues = S::new(alloc, ports, msgs)?;
        let (held, public) = headers_of(alloc, ports, msgs)?;
        Ok(Ports {
            ports: numbers,
            messages,
            queues,
            held,
            public,
        })
    }

    /// Frees every port and each message below `messages`, as `new` made them; each message from there on stays, in no
    /// port and not held.
    ///
    /// Source: project rule.
    pub fn reset(&mut self, messages: usize)
        requires known { messages ≤ length self.old.messages.slots }
        requires live { (m : ℕ) → messages ≤ m → m < length self.old.messages.slots → IsTrue (is_message m self.old) }
        ensures { self.new ≡ all_freed messages self.old }
    {
        self.ports.reset();
        self.messages.reset_below(messages);
        self.queues.reset();
        self.held.reset();
        self.public.reset();
    }

    // ---- making and freeing

    /// Makes a port of a task, with the number of the signal (0 to 31) by which it notifies the task of a message. It
    /// has the action PA_SIGNAL, no message, and is not public.
    ///
    /// Answers its number, or PoolFull if every port is in use. Autodoc exec.library/CreateMsgPort.
    pub fn create_port(&mut self, task: TaskId, bit: u32) -> Result<PortId, PortFault>
        requires { bit < 32 }
        ensures answer { result ≡ ok_or (next_number self.old.ports) PortFault.PoolFull }
        ensures next { self.new ≡ port_made task bit self.old }
        ensures live { IfOk result (λ p. IsTrue (is_port p self.new)) }
        ensures empty { IfOk result (λ p. IsTrue (not (has_messages p self.new))) }
        ensures private { IfOk result (λ p. IsTrue (not (is_public p self.new))) }
    {
        match self.next_port() {
            Some(p) => {
                self.ports.give(Port::new(task, bit));
                Ok(p)
            }
            None => Err(PortFault::PoolFull),
        }
    }

    /// Makes a message with a reply port, 0 for none, and a word. It is of type 0 (project rule) and in no port.
    ///
    /// The reply port is what the caller calls it by; nothing here looks at it. Answers the message's number, or
    /// PoolFull if every message is in use. Project rule: Exec leaves the making of messages to the program.
    pub fn make_msg(&mut self, reply: u32, word: u32) -> Result<MsgId, PortFault>
        ensures answer { result ≡ ok_or (next_number self.old.messages) PortFault.PoolFull }
        ensures next { self.new ≡ message_made reply word self.old }
        ensures live { IfOk result (λ m. IsTrue (is_message m self.new)) }
        ensures loose { IfOk result (λ m. IsTrue (not (is_linked m self.new))) }
    {
        match self.next_message() {
            Some(m) => {
                self.messages.give(Message {
                    kind: NT_UNKNOWN,
                    word,
                    reply,
                });
                Ok(m)
            }
            None => Err(PortFault::PoolFull),
        }
    }

    /// Answers the number that `create_port` would give, or none if every port is in use.
    ///
    /// Project rule: a caller can ask before it makes a port.
    pub fn next_port(&self) -> Option<PortId>
        ensures value { result ≡ next_number self.now.ports }
        ensures known { IfSome result (λ p. p < length self.now.ports.slots) }
        ensures free { IfSome result (λ p. IsTrue (not (is_port p self.now))) }
    {
        self.ports.next()
    }

    /// Answers the number that `make_msg` would give, or none if every message is in use.
    ///
    /// Project rule: a caller can ask before it makes a message.
    pub fn next_message(&self) -> Option<MsgId>
        ensures value { result ≡ next_number self.now.messages }
        ensures known { IfSome result (λ m. m < length self.now.messages.slots) }
        ensures free { IfSome result (λ m. IsTrue (not (is_message m self.now))) }
    {
        self.messages.next()
    }

    /// Frees a port, and answers its task and the number of its signal.
    ///
    /// It is Unknown if there is no such port, else NotEmpty if it has messages, and else Link if it is public.
    /// Autodoc exec.library/DeleteMsgPort.
    pub fn delete_port(&mut self, p: PortId) -> Result<(TaskId, u32), PortFault>
        ensures answer { result ≡ fault_or (delete_fault p self.old) ((port_at p self.old).task, (port_at p self.old).bit) }
        ensures next { self.new ≡ kept_or (delete_fault p self.old) self.old (port_freed p self.old) }
        ensures signal { IfOk result (λ owner. owner.1 < 32) }
    {
        match self.delete_fault(p) {
            Some(fault) => Err(fault),
            None => {
                let owner = self.port(p).owner();
                self.free_port(p);
                Ok(owner)
            }
        }
    }

    /// Frees a message.
    ///
    /// It is Unknown if there is no such message, and else Link if a port has it or it is held. Project rule, as
    /// `make_msg`.
    pub fn free_msg(&mut self, m: MsgId) -> Result<(), PortFault>
        ensures answer { result ≡ fault_or (linked_fault m self.old) tt }
        ensures next { self.new ≡ kept_or (linked_fault m self.old) self.old (message_freed m self.old) }
    {
        match self.linked_fault(m) {
            Some(fault) => Err(fault),
            None => {
                self.free_message(m);
                Ok(())
            }
        }
    }

    // ---- putting and taking

    /// Puts a message at a port, after those that it has, as one of type NT_MESSAGE, and answers what is to be done for
    /// it.
    ///
    /// It is Unknown if there is no such port or no such message, and else Link if a port has the message already, or
    /// it is held. Autodoc exec.library/PutMsg.
    pub fn put(&mut self, p: PortId, m: MsgId) -> Result<Action, PortFault>
        ensures answer { result ≡ fault_or (post_fault p m self.old) (arrival_action (port_at p self.old)) }
        ensures next { self.new ≡ kept_or (post_fault p m self.old) self.old (posted nt_message p m self.old) }
    {
        match self.post_fault(p, m) {
            Some(fault) => Err(fault),
            None => Ok(self.post(p, m, NT_MESSAGE)),
        }
    }

    /// Puts a message at a port, after those that it has, as one of type NT_REPLYMSG, and answers what is to be done
    /// for it. It is not held any more. Which port is the reply port of the message is for the caller to say.
    ///
    /// It is Unknown if there is no such port or no such message, and else Link if a port has the message already.
    /// Autodoc exec.library/ReplyMsg.
    pub fn reply(&mut self, p: PortId, m: MsgId) -> Result<Action, PortFault>
        ensures answer { result ≡ fault_or (reply_fault p m self.old) (arrival_action (port_at p self.old)) }
        ensures next { self.new ≡ kept_or (reply_fault p m self.old) self.old (posted nt_replymsg p m (let_go m self.old)) }
    {
        match self.reply_fault(p, m) {
            Some(fault) => Err(fault),
            None => {
                self.let_go(m);
                Ok(self.post(p, m, NT_REPLYMSG))
            }
        }
    }

    /// Gives a message that has no reply port the type NT_FREEMSG.
    ///
    /// It is Unknown if there is no such message, and else Link if a port has it or it is held. Autodoc
    /// exec.library/ReplyMsg.
    pub fn reply_none(&mut self, m: MsgId) -> Result<(), PortFault>
        ensures answer { result ≡ fault_or (linked_fault m self.old) tt }
        ensures next { self.new ≡ kept_or (linked_fault m self.old) self.old (typed nt_freemsg m self.old) }
    {
        match self.linked_fault(m) {
            Some(fault) => Err(fault),
            None => {
                self.set_kind(m, NT_FREEMSG);
                Ok(())
            }
        }
    }

    /// Takes the first message off a port and answers it, or answers none if the port has none.
    /// Autodoc exec.library/GetMsg.
    pub fn get(&mut self, p: PortId) -> Option<MsgId>
        requires { IsTrue (is_port p self.old) }
        ensures value { result ≡ first (messages_of p self.old) }
        ensures next { self.new ≡ taken_off p (first (messages_of p self.old)) self.old }
        ensures live { IfSome result (λ m. IsTrue (is_message m self.new)) }
    {
        self.queues.rem_head(p)
    }

    /// Answers the first message of a port, or none, and leaves it there.
    /// Autodoc exec.library/WaitPort: what it answers.
    pub fn first(&self, p: PortId) -> Option<MsgId>
        requires { IsTrue (is_port p self.now) }
        ensures value { result ≡ first (messages_of p self.now) }
        ensures live { IfSome result (λ m. IsTrue (is_message m self.now)) }
    {
        self.queues.first(p)
    }

    /// Takes a message out of the port that has it, wherever it is there.
    ///
    /// It is Unknown if there is no such message, and else Link if no port has it. Autodoc exec.library/WaitIO: it
    /// takes the reply out of its port.
    pub fn take_out(&mut self, m: MsgId) -> Result<(), PortFault>
        ensures answer { result ≡ fault_or (queued_fault m self.old) tt }
        ensures next { self.new ≡ kept_or (queued_fault m self.old) self.old (taken_out m self.old) }
    {
        match self.queued_fault(m) {
            Some(fault) => Err(fault),
            None => {
                self.queues.remove(m);
                Ok(())
            }
        }
    }

    /// Holds a message, after those that are held: it is in no port, and only a reply puts it at one.
    ///
    /// It is Unknown if there is no such message, and else Link if a port has it or it is held. Project rule: a device
    /// holds a request that is in progress.
    pub fn hold(&mut self, m: MsgId) -> Result<(), PortFault>
        ensures answer { result ≡ fault_or (linked_fault m self.old) tt }
        ensures next { self.new ≡ kept_or (linked_fault m self.old) self.old (held m self.old) }
    {
        match self.linked_fault(m) {
            Some(fault) => Err(fault),
            None => {
                self.held.add_tail(HELD, m);
                Ok(())
            }
        }
    }

    /// A message is held no more; one that is not held stays as it is. Project rule: a device that is done with a
    /// request without a reply.
    pub fn let_go(&mut self, m: MsgId)
        requires { IsTrue (is_message m self.old) }
        ensures gone { is_held m self.new ≡ false }
        ensures next { self.new ≡ let_go m self.old }
    {
        if self.is_held(m) {
            self.held.remove(m);
        }
    }

    // ---- public ports

    /// Makes a port public under a name, before the first public port of lower priority (-128 to 127).
    ///
    /// It is Unknown if there is no such port, and else Link if it is public already. Autodoc exec.library/AddPort.
    pub fn add_port(&mut self, p: PortId, name: Name, pri: i8) -> Result<(), PortFault>
        ensures answer { result ≡ fault_or (private_fault p self.old) tt }
        ensures next { self.new ≡ kept_or (private_fault p self.old) self.old (made_public p name.bytes pri self.old) }
    {
        match self.private_fault(p) {
            Some(fault) => Err(fault),
            None => {
                self.publish(p, name, pri);
                Ok(())
            }
        }
    }

    /// Makes a port public no more.
    ///
    /// It is Unknown if there is no such port, and else Link if it is not public. Autodoc exec.library/RemPort.
    pub fn rem_port(&mut self, p: PortId) -> Result<(), PortFault>
        ensures answer { result ≡ fault_or (public_fault p self.old) tt }
        ensures next { self.new ≡ kept_or (public_fault p self.old) self.old (made_private p self.old) }
    {
        match self.public_fault(p) {
            Some(fault) => Err(fault),
            None => {
                self.withdraw(p);
                Ok(())
            }
        }
    }

    /// Answers the first public port of that name, or none. Names compare byte for byte.
    ///
    /// The public ports are by priority, and those of one priority in the order in which they were made public.
    /// Autodoc exec.library/FindPort.
    pub fn find_port(&self, name: &str) -> Option<PortId>
        ensures value { result ≡ find (is_named self.now.keys name.now) self.now.public }
        ensures live { IfSome result (λ p. IsTrue (is_port p self.now)) }
    {
        self.public.find_name(PUBLIC, None, name)
    }

    // ---- one port or message

    /// Answers whether there is a port of that number: whether the calls that ask for one may be made. Project rule.
    pub fn is_port(&self, p: PortId) -> bool
        ensures { result ≡ is_port p self.now }
    {
        self.ports.get(p).is_some()
    }

    /// Answers whether there is a message of that number: whether the calls that ask for one may be made. Project rule.
    pub fn is_message(&self, m: MsgId) -> bool
        ensures { result ≡ is_message m self.now }
    {
        self.messages.get(m).is_some()
    }

    /// Gives a port another action. RKM Libraries, Exec Messages and Ports: `mp_Flags`.
    pub fn set_action(&mut self, p: PortId, action: PortAction)
        requires { IsTrue (is_port p self.old) }
        ensures { self.new ≡ with_port p (record (port_at p self.old) { action = action }) self.old }
    {
        let port = self.port(p);
        self.set_port(p, port.with_action(action));
    }

    /// Answers the number of the signal (0 to 31) by which a port with the action PA_SIGNAL notifies a task of
    /// messages, or none if the port is another task's or has another action. Autodoc exec.library/WaitPort.
    pub fn wait_bit(&self, p: PortId, task: TaskId) -> Option<u32>
        requires { IsTrue (is_port p self.now) }
        ensures value { result ≡ wait_bit task (port_at p self.now) }
        ensures signal { IfSome result (λ bit. bit < 32) }
    {
        self.port(p).wait_bit(task)
    }

    /// Answers the word of a message. Project rule: what a message carries.
    pub fn word(&self, m: MsgId) -> u32
        requires { IsTrue (is_message m self.now) }
        ensures { result ≡ (message_at m self.now).word }
    {
        self.message(m).word
    }

    /// Gives a message another word.
    pub fn set_word(&mut self, m: MsgId, word: u32)
        requires { IsTrue (is_message m self.old) }
        ensures { self.new ≡ with_message m (record (message_at m self.old) { word = word }) self.old }
    {
        let message = self.message(m);
        self.set_message(
            m,
            Message {
                kind: message.kind,
                word,
                reply: message.reply,
            },
        );
    }

    /// Answers the type of a message: 0 for a new one, NT_MESSAGE, NT_REPLYMSG or NT_FREEMSG.
    /// RKM Libraries, Exec Messages and Ports: `ln_Type`.
    pub fn kind(&self, m: MsgId) -> u8
        requires { IsTrue (is_message m self.now) }
        ensures { result ≡ (message_at m self.now).kind }
    {
        self.message(m).kind
    }

    /// Answers the reply port of a message as `make_msg` was given it, 0 for none.
    /// RKM Libraries, Exec Messages and Ports: `mn_ReplyPort`.
    pub fn reply_port(&self, m: MsgId) -> u32
        requires { IsTrue (is_message m self.now) }
        ensures { result ≡ (message_at m self.now).reply }
    {
        self.message(m).reply
    }

    /// Answers whether a port has the message, or it is held. Project rule: Exec cannot say.
    pub fn is_linked(&self, m: MsgId) -> bool
        requires { IsTrue (is_message m self.now) }
        ensures { result ≡ is_linked m self.now }
    {
        self.is_queued(m) || self.is_held(m)
    }

    /// Answers whether a port has the message. Project rule: Exec cannot say.
    pub fn is_queued(&self, m: MsgId) -> bool
        requires { IsTrue (is_message m self.now) }
        ensures { result ≡ is_queued m self.now }
    {
        self.queues.home(m).is_some()
    }

    /// Answers whether the message is held. Project rule: Exec cannot say.
    pub fn is_held(&self, m: MsgId) -> bool
        requires { IsTrue (is_message m self.now) }
        ensures { result ≡ is_held m self.now }
    {
        self.held.home(m).is_some()
    }

    /// Answers whether a port is public. Project rule: Exec cannot say.
    pub fn is_public(&self, p: PortId) -> bool
        requires { IsTrue (is_port p self.now) }
        ensures { result ≡ is_public p self.now }
    {
        self.public.home(p).is_some()
    }

    /// Does nothing: its clauses are what always holds of the ports and the messages, and of the numbers that are next.
    pub fn facts(&self)
        ensures sound { IsSoundPorts self.now }
        ensures ports { IsStocked self.now.ports }
        ensures messages { IsStocked self.now.messages }
    {
        let _ = &self.queues;
        self.ports.facts();
        self.messages.facts();
    }

    // ---- refusals

    // Why a message may not be freed or put anywhere, if it may not.
    fn linked_fault(&self, m: MsgId) -> Option<PortFault>
        ensures { result ≡ linked_fault m self.now }
    {
        if !self.is_message(m) {
            Some(PortFault::Unknown)
        } else if self.is_linked(m) {
            Some(PortFault::Link)
        } else {
            None
        }
    }

    // Why a message may not be put at a port, if it may not.
    fn post_fault(&self, p: PortId, m: MsgId) -> Option<PortFault>
        ensures { result ≡ post_fault p m self.now }
    {
        if !self.is_port(p) {
            Some(PortFault::Unknown)
        } else {
            self.linked_fault(m)
        }
    }

    // Why a message may not be replied to a port, if it may not.
    fn reply_fault(&self, p: PortId, m: MsgId) -> Option<PortFault>
        ensures { result ≡ reply_fault p m self.now }
    {
        if !self.is_port(p) || !self.is_message(m) {
            Some(PortFault::Unknown)
        } else if self.is_queued(m) {
            Some(PortFault::Link)
        } else {
            None
        }
    }

    // Why a message may not be taken out of its port, if it may not.
    fn queued_fault(&self, m: MsgId) -> Option<PortFault>
        ensures { result ≡ queued_fault m self.now }
    {
        if !self.is_message(m) {
            Some(PortFault::Unknown)
        } else if self.is_queued(m) {
            None
        } else {
            Some(PortFault::Link)
        }
    }

    // Why a port may not be made public, if it may not.
    fn private_fault(&self, p: PortId) -> Option<PortFault>
        ensures { result ≡ private_fault p self.now }
    {
        if !self.is_port(p) {
            Some(PortFault::Unknown)
        } else if self.is_public(p) {
            Some(PortFault::Link)
        } else {
            None
        }
    }

    // Why a port may not be made public no more, if it may not.
    fn public_fault(&self, p: PortId) -> Option<PortFault>
        ensures { result ≡ public_fault p self.now }
    {
        if !self.is_port(p) {
            Some(PortFault::Unknown)
        } else if self.is_public(p) {
            None
        } else {
            Some(PortFault::Link)
        }
    }

    // Why a port may not be freed, if it may not.
    fn delete_fault(&self, p: PortId) -> Option<PortFault>
        ensures { result ≡ delete_fault p self.now }
    {
        if !self.is_port(p) {
            Some(PortFault::Unknown)
        } else if self.first(p).is_some() {
            Some(PortFault::NotEmpty)
        } else if self.is_public(p) {
            Some(PortFault::Link)
        } else {
            None
        }
    }

    // ---- single changes

    // A port.
    fn port(&self, p: PortId) -> Port
        requires { IsTrue (is_port p self.now) }
        ensures { result ≡ port_at p self.now }
    {
        self.ports.get(p).unwrap()
    }

    // A message.
    fn message(&self, m: MsgId) -> Message
        requires { IsTrue (is_message m self.now) }
        ensures { result ≡ message_at m self.now }
    {
        self.messages.get(m).unwrap()
    }

    // Puts another port in place of one.
    fn set_port(&mut self, p: PortId, port: Port)
        requires { IsTrue (is_port p self.old) }
        ensures { self.new ≡ with_port p port self.old }
    {
        self.ports.set(p, port);
    }

    // Puts another message in place of one.
    fn set_message(&mut self, m: MsgId, message: Message)
        requires { IsTrue (is_message m self.old) }
        ensures { self.new ≡ with_message m message self.old }
    {
        self.messages.set(m, message);
    }

    // Gives a message another type.
    fn set_kind(&mut self, m: MsgId, kind: u8)
        requires { IsTrue (is_message m self.old) }
        ensures { self.new ≡ typed kind m self.old }
    {
        let message = self.message(m);
        self.set_message(
            m,
            Message {
                kind,
                word: message.word,
                reply: message.reply,
            },
        );
    }

    // Frees a port that has no message and is not public.
    fn free_port(&mut self, p: PortId)
        requires live { IsTrue (is_port p self.old) }
        requires empty { IsTrue (not (has_messages p self.old)) }
        requires private { IsTrue (not (is_public p self.old)) }
        ensures { self.new ≡ port_freed p self.old }
    {
        self.ports.release(p);
    }

    // Frees a message that is in no port and not held.
    fn free_message(&mut self, m: MsgId)
        requires live { IsTrue (is_message m self.old) }
        requires loose { IsTrue (not (is_linked m self.old)) }
        ensures { self.new ≡ message_freed m self.old }
    {
        self.messages.release(m);
    }

    // Puts a message that is in no port and not held at a port.
    fn append(&mut self, p: PortId, m: MsgId)
        requires port { IsTrue (is_port p self.old) }
        requires message { IsTrue (is_message m self.old) }
        requires loose { IsTrue (not (is_linked m self.old)) }
        ensures { self.new ≡ appended p m self.old }
    {
        self.queues.add_tail(p, m);
    }

    // Puts a message of that type at a port, and answers what is to be done for it.
    fn post(&mut self, p: PortId, m: MsgId, kind: u8) -> Action
        requires port { IsTrue (is_port p self.old) }
        requires message { IsTrue (is_message m self.old) }
        requires loose { IsTrue (not (is_linked m self.old)) }
        ensures answer { result ≡ arrival_action (port_at p self.old) }
        ensures next { self.new ≡ posted kind p m self.old }
    {
        let action = self.port(p).acting();
        self.set_kind(m, kind);
        self.append(p, m);
        action
    }

    // Makes a port public that is not.
    fn publish(&mut self, p: PortId, name: Name, pri: i8)
        requires live { IsTrue (is_port p self.old) }
        requires private { IsTrue (not (is_public p self.old)) }
        ensures { self.new ≡ made_public p name.bytes pri self.old }
    {
        self.public.set_key(p, pri, Some(name));
        self.public.enqueue(PUBLIC, p);
    }

    // Makes a public port public no more.
    fn withdraw(&mut self, p: PortId)
        requires { IsTrue (is_public p self.old) }
        ensures { self.new ≡ made_private p self.old }
    {
        self.public.remove(p);
    }
}
