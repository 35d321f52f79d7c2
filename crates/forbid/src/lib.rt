//! How deep one task has nested Forbid and Disable, and whether that lets other tasks and interrupts run.
//! Which task is running, and that a waiting task breaks its nesting, is not kept here.
#![tactic(auto)]

ghost use Rattle.std.specs.Prelude.{◌≡◌, Some, None, OnOk, OnErr, IfErr};
ghost use Rattle.forbid.specs.{Nesting.Nesting, Nesting.initial_nesting, Nesting.after_forbid, Nesting.after_permit, Nesting.after_disable, Nesting.after_enable, Nesting.may_switch, Nesting.may_interrupt, declared.NestFault.TheVariants.TooDeep, declared.NestFault.TheVariants.NotNested};

use std::marker::Model;
use thiserror::Error;

pub mod laws;

/// A count of a task that is not inside a pair of calls.
const NOT_NESTED: i8 = -1;

/// The greatest count.
const DEEPEST: i8 = 127;

/// A call would take a nesting count out of its range, from -1 to 127.
#[derive(Clone, Copy, Debug, PartialEq, Eq, Error)]
pub enum NestFault {
    /// `forbid` or `disable` was called if its count is 127.
    #[error("nested too deep")]
    TooDeep,
    /// `permit` or `enable` was called if its count is -1.
    #[error("not nested")]
    NotNested,
}

/// The nesting of one task: a count for Forbid and a count for Disable, each from -1 to 127.
///
/// The value holds no memory. Source: RKM Libraries, Exec Tasks, on forbidding and disabling.
#[derive(Clone, Copy, PartialEq, Eq)]
pub struct Nest {
    forbids: i8,
    disables: i8,
}

impl Model for Nest {
    ghost use Rattle.forbid.specs.Nesting.{Nesting, IsInRange};

    ghost Value = { Nesting };

    ghost view = { λ n. record { forbids = n.forbids; disables = n.disables } };

    ghost invariant = { λ n. IsInRange (record { forbids = n.forbids; disables = n.disables }) };

    ghost inverse = { λ nesting. record { forbids = nesting.forbids; disables = nesting.disables } };
}

impl Nest {
    /// The nesting of a task that has called neither Forbid nor Disable: both counts are -1.
    ///
    /// Source: RKM Libraries, Exec Tasks.
    pub fn new() -> Self
        ensures { result ≡ initial_nesting }
    {
        Nest {
            forbids: NOT_NESTED,
            disables: NOT_NESTED,
        }
    }

    /// Counts one more Forbid: no other task is given the processor until as many calls of `permit`.
    ///
    /// It is `TooDeep` and changes nothing if the count is 127 (project rule).
    /// Source: autodoc exec.library/Forbid.
    pub fn forbid(&mut self) -> Result<(), NestFault>
        ensures ok { OnOk result (after_forbid self.old ≡ Some self.new) }
        ensures too_deep { IfErr result (λ fault. (fault ≡ TooDeep) × (after_forbid self.old ≡ None)) }
        ensures unchanged { OnErr result (self.new ≡ self.old) }
    {
        if self.forbids == DEEPEST {
            return Err(NestFault::TooDeep);
        }
        self.forbids += 1;
        Ok(())
    }

    /// Takes back one Forbid.
    ///
    /// It is `NotNested` and changes nothing if the count is -1 (project rule).
    /// Source: autodoc exec.library/Permit.
    pub fn permit(&mut self) -> Result<(), NestFault>
        ensures ok { OnOk result (after_permit self.old ≡ Some self.new) }
        ensures not_nested { IfErr result (λ fault. (fault ≡ NotNested) × (after_permit self.old ≡ None)) }
        ensures unchanged { OnErr result (self.new ≡ self.old) }
    {
        if self.forbids == NOT_NESTED {
            return Err(NestFault::NotNested);
        }
        self.forbids -= 1;
        Ok(())
    }

    /// Counts one more Disable: until as many calls of `enable` no other task is given the processor and no interrupt
    /// is served.
    ///
    /// It is `TooDeep` and changes nothing if the count is 127 (project rule).
    /// Source: autodoc exec.library/Disable.
    pub fn disable(&mut self) -> Result<(), NestFault>
        ensures ok { OnOk result (after_disable self.old ≡ Some self.new) }
        ensures too_deep { IfErr result (λ fault. (fault ≡ TooDeep) × (after_disable self.old ≡ None)) }
        ensures unchanged { OnErr result (self.new ≡ self.old) }
    {
        if self.disables == DEEPEST {
            return Err(NestFault::TooDeep);
        }
        self.disables += 1;
        Ok(())
    }

    /// Takes back one Disable.
    ///
    /// It is `NotNested` and changes nothing if the count is -1 (project rule).
    /// Source: autodoc exec.library/Enable.
    pub fn enable(&mut self) -> Result<(), NestFault>
        ensures ok { OnOk result (after_enable self.old ≡ Some self.new) }
        ensures not_nested { IfErr result (λ fault. (fault ≡ NotNested) × (after_enable self.old ≡ None)) }
        ensures unchanged { OnErr result (self.new ≡ self.old) }
    {
        if self.disables == NOT_NESTED {
            return Err(NestFault::NotNested);
        }
        self.disables -= 1;
        Ok(())
    }

    /// Whether another task may be given the processor: both counts are -1.
    ///
    /// Source: autodocs exec.library/Forbid and exec.library/Disable.
    pub fn may_switch(&self) -> bool
        ensures { result ≡ may_switch self.now }
    {
        self.forbids == NOT_NESTED && self.disables == NOT_NESTED
    }

    /// Whether an interrupt may be served: the count of Disable is -1. Forbid does not hold interrupts back.
    ///
    /// Source: autodoc exec.library/Disable.
    pub fn may_interrupt(&self) -> bool
        ensures { result ≡ may_interrupt self.now }
    {
        self.disables == NOT_NESTED
    }

    /// How often Forbid was called and not taken back, less 1: -1 to 127.
    ///
    /// Source: RKM Libraries, Exec Tasks: `TDNestCnt`.
    pub fn forbids(&self) -> i8
        ensures { result ≡ self.now.forbids }
    {
        self.forbids
    }

    /// How often Disable was called and not taken back, less 1: -1 to 127.
    ///
    /// Source: RKM Libraries, Exec Tasks: `IDNestCnt`.
    pub fn disables(&self) -> i8
        ensures { result ≡ self.now.disables }
    {
        self.disables
    }
}
