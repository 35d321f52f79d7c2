//! One port: whom it notifies of a message that arrives, and how.
ghost use Rattle.std.specs.Prelude.{◌≡◌, ◌<◌, ◌≤◌, IfSome};
ghost use Rattle.msgport.specs.Port.{Port as Owned, arrival_action, new_port, wait_bit};

use crate::action::{Action, PortAction, TaskId};
use std::marker::Model;

/// A port without its messages: its task, the number of its signal, and its action.
#[derive(Clone, Copy)]
pub struct Port {
    task: TaskId,
    bit: u32,
    action: PortAction,
}

impl Model for Port {
    ghost use Rattle.std.specs.Prelude.{◌<◌};
    ghost use Rattle.msgport.specs.Port.{Port as Owned};

    ghost Value = { Owned };

    ghost view = { λ p. record { task = p.task; bit = p.bit; action = p.action } };

    ghost invariant = { λ p. p.bit < 32 };

    ghost inverse = { λ p. record { task = p.task; bit = p.bit; action = p.action } };
}

impl Port {
    /// A port of a task, which signals it by the signal of that number.
    ///
    /// Source: autodoc exec.library/CreateMsgPort.
    pub fn new(task: TaskId, bit: u32) -> Self
        requires { bit < 32 }
        ensures { result ≡ new_port task bit }
    {
        Port {
            task,
            bit,
            action: PortAction::Signal,
        }
    }

    /// The task of the port and the number of its signal.
    ///
    /// Source: RKM Libraries, Exec Messages and Ports: `mp_SigTask` and `mp_SigBit`.
    pub fn owner(&self) -> (TaskId, u32)
        ensures value { result ≡ (self.now.task, self.now.bit) }
        ensures signal { result.1 < 32 }
    {
        (self.task, self.bit)
    }

    /// What the port does when a message arrives.
    ///
    /// Source: RKM Libraries, Exec Messages and Ports: `mp_Flags`.
    pub fn action(&self) -> PortAction
        ensures { result ≡ self.now.action }
    {
        self.action
    }

    /// The port with another action.
    ///
    /// Source: RKM Libraries, Exec Messages and Ports: `mp_Flags`.
    pub fn with_action(&self, action: PortAction) -> Self
        ensures { result ≡ record self.now { action = action } }
    {
        Port {
            task: self.task,
            bit: self.bit,
            action,
        }
    }

    /// What is to be done when a message arrives.
    ///
    /// Source: autodoc exec.library/PutMsg.
    pub fn acting(&self) -> Action
        ensures { result ≡ arrival_action self.now }
    {
        match self.action {
            PortAction::Signal => Action::Signal(self.task, 1 << self.bit),
            PortAction::Cause(i) => Action::Cause(i),
            PortAction::Ignore => Action::Nothing,
        }
    }

    /// The number of the signal that the task waits for at this port, none if the port is another's or signals no task.
    ///
    /// Source: autodoc exec.library/WaitPort.
    pub fn wait_bit(&self, task: TaskId) -> Option<u32>
        ensures value { result ≡ wait_bit task self.now }
        ensures signal { IfSome result (λ bit. bit < 32) }
    {
        match self.action {
            PortAction::Signal => {
                if self.task == task {
                    Some(self.bit)
                } else {
                    None
                }
            }
            PortAction::Cause(_) | PortAction::Ignore => None,
        }
    }
}
