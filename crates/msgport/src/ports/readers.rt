//! What is seen of ports and messages. Nothing here changes them.
ghost use Rattle.std.specs.Prelude.{◌≡◌, Some, IfSome, IsTrue};
ghost use Rattle.std.specs.Option.{ForSome};
ghost use Rattle.execlist.specs.{Lists.home, Lists.part_from, Order.first};
ghost use Rattle.msgport.specs.Ports.{is_message, is_port, message_at, messages_of, port_at};

use super::{MsgId, PortId, Ports};
use crate::message::{Message, NT_UNKNOWN};
use crate::port::Port;
use execlist::space::ListSpace;
use execlist::walk::next_node;

impl<S: ListSpace> Ports<S> {
    /// A port without its messages; if there is none of that number, a new one of task 0 and signal 0.
    ///
    /// Source: RKM Libraries, Exec Messages and Ports: `struct MsgPort`.
    pub fn port_at(&self, p: PortId) -> Port
        ensures { result ≡ port_at p self.now }
    {
        match self.ports.get(p) {
            Some(port) => port,
            None => Port::new(0, 0),
        }
    }

    /// A message without its place; if there is none of that number, a new one without a reply port and with word 0.
    ///
    /// Source: RKM Libraries, Exec Messages and Ports: `struct Message`.
    pub fn message_at(&self, m: MsgId) -> Message
        ensures { result ≡ message_at m self.now }
    {
        match self.messages.get(m) {
            Some(message) => message,
            None => Message {
                kind: NT_UNKNOWN,
                word: 0,
                reply: 0,
            },
        }
    }

    /// Answers the port that has a message, or none.
    ///
    /// Source: project rule: Exec cannot say.
    pub fn place(&self, m: MsgId) -> Option<PortId>
        requires { IsTrue (is_message m self.now) }
        ensures value { result ≡ home self.now.places m }
        ensures live { IfSome result (λ p. IsTrue (is_port p self.now)) }
    {
        self.queues.home(m)
    }

    /// Answers the message after `after` in a port, or the first one for none; none at the end, and if the port does
    /// not have `after`.
    ///
    /// Source: RKM Libraries, Exec Messages and Ports: `mp_MsgList`.
    pub fn message_after(&self, p: PortId, after: Option<MsgId>) -> Option<MsgId>
        requires port { IsTrue (is_port p self.now) }
        requires message { ForSome after (λ m. IsTrue (is_message m self.now)) }
        ensures value { result ≡ first (part_from after (messages_of p self.now)) }
        ensures live { IfSome result (λ m. IsTrue (is_message m self.now)) }
        ensures place { IfSome result (λ m. home self.now.places m ≡ Some p) }
    {
        next_node(&self.queues, p, after)
    }
}
