//! What is in the queues of a machine, one after another, and where a message, a request and a public port are; and the
//! free memory. Nothing here changes the machine, and nothing takes memory. Each call may be made between any two
//! events.
ghost use Rattle.std.specs.Prelude.{◌≡◌, option_map};
ghost use Rattle.execlist.specs.{Lists.part_from, Order.first};
ghost use Rattle.timerdev.specs.DueTimes.{due_of, due_view};
ghost use Rattle.execmodel.specs.{Lists.nodes_of, Ports.messages_of, Semaphores.waiters_of};
ghost use Rattle.execheap.specs.Queues.{gap_from, port_named, port_with};

use super::Machine;
use execheap::{DueTime, Gap};
use execlist::space::ListSpace;
use taskq::TaskId;

impl<S: ListSpace> Machine<S> {
    /// Answers the node after `after` in the list that begins at an address, or its first one for none; none at the
    /// end, and if there is no such list or `after` is not in it.
    ///
    /// Source: RKM Libraries, Exec Lists and Queues: scanning a list.
    pub fn node_after(&self, list: u32, after: Option<u32>) -> Option<u32>
        ensures { result ≡ first (part_from after (nodes_of list self.now.seen.memory.heap)) }
    {
        self.kernel.memory.node_after(list, after)
    }

    /// Answers the message, or the request, after `after` in the port that begins at an address, or the first one for
    /// none, in order of arrival; none at the end, and if there is no such port or it does not have `after`.
    ///
    /// Source: RKM Libraries, Exec Messages and Ports: `mp_MsgList`.
    pub fn message_after(&self, port: u32, after: Option<u32>) -> Option<u32>
        ensures { result ≡ first (part_from after (messages_of port self.now.seen.memory.heap)) }
    {
        self.kernel.memory.message_after(port, after)
    }

    /// Answers the port that has a message, or the reply of a request; none if no port has it.
    ///
    /// Source: project rule: Exec cannot say.
    pub fn port_with(&self, message: u32) -> Option<u32>
        ensures { result ≡ port_with message self.now.seen.memory.heap }
    {
        self.kernel.memory.port_with(message)
    }

    /// Answers the first public port of a name, as FindPort finds it; none if there is none.
    ///
    /// Source: autodoc exec.library/FindPort.
    pub fn public_port(&self, name: &str) -> Option<u32>
        ensures { result ≡ port_named name.now self.now.seen.memory.public }
    {
        self.kernel.memory.public_port(name)
    }

    /// Answers the task that waits after `after` for the semaphore that begins at an address, or the first one for
    /// none, in order of request; none at the end, and if there is no such semaphore or `after` does not wait for it.
    ///
    /// Source: RKM Libraries, Exec Semaphores: `ss_WaitQueue`.
    pub fn waiter_after(&self, semaphore: u32, after: Option<TaskId>) -> Option<TaskId>
        ensures { result ≡ first (part_from after (waiters_of semaphore self.now.seen.memory.heap)) }
    {
        self.kernel.memory.waiter_after(semaphore, after)
    }

    /// Answers the time for which a request waits, by the clock or by system time; none if it does not wait.
    ///
    /// Source: RKM Devices, timer device: TR_ADDREQUEST.
    pub fn due(&self, request: u32) -> Option<DueTime>
        ensures { option_map due_view result ≡ due_of request self.now.seen.memory.timer }
    {
        self.kernel.memory.due(request)
    }

    /// Answers the lowest gap of a region that begins at an address or above it; none if there is none, and past the
    /// last region. The region is named by its place in the file, from 0.
    ///
    /// Source: RKM Libraries, Exec Memory Allocation: MemChunk.
    pub fn gap_from(&self, k: usize, address: u32) -> Option<Gap>
        ensures { result ≡ gap_from k address self.now.seen.memory }
    {
        self.kernel.memory.gap_from(k, address)
    }
}
