//! The interrupts of a machine.
ghost use Rattle.std.specs.Prelude.{◌≡◌, ◌<◌, ◌≤◌, length, slice_get, All, Some, is_some, IfOk, IfSome};
ghost use Rattle.execlist.specs.{Order.first, Lists.part_from, Disciplines.pri_at};
ghost use Rattle.softint.specs.Interrupts.{IsPriority, quiet, hushed, causes, taken_off, raised, served, chain, header_pri};
ghost use Rattle.softint.specs.Sources.{highest};

use crate::caused::{IntId, PRIORITIES, first_caused, header_of, next_caused};
use crate::chain::{Chains, ServerId, server_at};
use crate::interrupt::{Server, Soft};
use crate::latches::Latches;
use crate::source::Source;
use execlist::space::{HeaderId, ListSpace};
use std::alloc::{AllocError, Global};
use std::marker::Model;

/// Which software interrupts are caused, which sources ask to be served, and which servers each source has.
///
/// All room is made by `new`; no other call takes memory, and none but `reset` looks at all software interrupts or all
/// servers. RKM Libraries, Exec Interrupts.
#[derive(Drop)]
pub struct Ints<S: ListSpace> {
    softs: Vec<Soft>,
    caused: S,
    some_caused: bool,
    latches: Latches,
    servers: Vec<Server>,
    chains: Chains,
}

impl<S: ListSpace> Model for Ints<S> {
    ghost use Rattle.std.specs.Prelude.{◌≡◌, is_some, length, map};
    ghost use Rattle.execlist.specs.Order.{first};
    ghost use Rattle.softint.specs.Interrupts.{Interrupts, KeepsInterrupts, IsChained, joined};

    ghost Value = { Interrupts };

    ghost view = { λ q. record {
      priorities = map (λ s. s.pri) q.softs.items;
      caused = joined (S.sequences q.caused);
      latches = q.latches;
      servers = q.servers.items;
    } };

    ghost invariant = { λ q. KeepsInterrupts (length (S.sequences q.caused)) (S.homes q.caused) q.softs.items
        × IsChained q.chains.ports.items q.chains.vertb.items q.chains.exter.items q.servers.items
        × (q.some_caused ≡ is_some (first (joined (S.sequences q.caused)))) };
}

impl<S: ListSpace> Ints<S> {
    /// Software interrupts of these priorities and these servers, at most 32 of each, numbered in the order given. No
    /// software interrupt is caused and no source asks to be served.
    ///
    /// The priority of a software interrupt is -32, -16, 0, 16 or 32. An error means that memory is refused.
    pub fn new(alloc: Global, softs: &[Soft], servers: &[Server]) -> Result<Self, AllocError>
        requires few_softs { length softs.now ≤ 32 }
        requires few_servers { length servers.now ≤ 32 }
        requires priorities { All (λ s. IsPriority s.pri) softs.now }
        ensures { IfOk result (λ q. q ≡ quiet softs.now servers.now) }
    {
        let caused = S::new(alloc, PRIORITIES, softs.len())?;
        let chains = Chains::new(alloc, servers)?;
        let own_softs = Vec::from_slice(alloc, softs)?;
        let own_servers = Vec::from_slice(alloc, servers)?;
        Ok(Ints {
            softs: own_softs,
            caused,
            some_caused: false,
            latches: Latches::new(),
            servers: own_servers,
            chains,
        })
    }

    /// Takes off every software interrupt that is caused and clears the latch of each source, as `new` made them.
    ///
    /// Source: project rule.
    pub fn reset(&mut self)
        ensures { self.new ≡ hushed self.old }
    {
        self.caused.reset();
        self.some_caused = false;
        self.latches = Latches::new();
    }

    // ---- software interrupts

    /// Causes a software interrupt: it is to run after the caused ones of its priority. One that is caused already
    /// stays where it is. Autodoc exec.library/Cause.
    pub fn cause(&mut self, i: IntId)
        requires { i < length self.old.priorities }
        ensures { self.new ≡ causes i self.old }
    {
        if self.caused.home(i).is_none() {
            let h = self.header(i);
            self.caused.add_tail(h, i);
            self.some_caused = true;
        }
    }

    /// Answers whether a software interrupt is caused. It looks at none of them. Project rule: Exec reports it by the
    /// interrupt that it asks for.
    pub fn any_caused(&self) -> bool
        ensures { result ≡ is_some (first self.now.caused) }
    {
        self.some_caused
    }

    /// Answers the caused software interrupt that is to run after `after`, or the one that is to run next for none;
    /// none at the end, and if `after` is not caused. RKM Libraries, Exec Interrupts: software interrupts.
    pub fn caused_after(&self, after: Option<IntId>) -> Option<IntId>
        ensures { result ≡ first (part_from after self.now.caused) }
    {
        match after {
            None => first_caused(&self.caused),
            Some(i) => {
                if i < self.softs.len() {
                    next_caused(&self.caused, i)
                } else {
                    None
                }
            }
        }
    }

    /// Takes off the caused software interrupt that is to run next and answers it, or answers none if none is caused:
    /// the one that was caused first among those of highest priority. RKM Libraries, Exec Interrupts: software
    /// interrupts.
    pub fn next(&mut self) -> Option<IntId>
        ensures value { result ≡ first self.old.caused }
        ensures next { self.new ≡ taken_off (first self.old.caused) self.old }
        ensures known { IfSome result (λ i. i < length self.new.priorities) }
    {
        if !self.some_caused {
            return None;
        }
        let i = first_caused(&self.caused)?;
        self.caused.remove(i);
        self.some_caused = first_caused(&self.caused).is_some();
        Some(i)
    }

    // ---- sources

    /// Sets the latch of a source: it asks to be served. If it does so already, nothing changes.
    /// RKM Libraries, Exec Interrupts: interrupt requests.
    pub fn raise(&mut self, source: Source)
        ensures { self.new ≡ raised source self.old }
    {
        self.latches = self.latches.with(source, true);
    }

    /// Answers which sources ask to be served. RKM Libraries, Exec Interrupts: interrupt requests.
    pub fn latches(&self) -> Latches
        ensures { result ≡ self.now.latches }
    {
        self.latches
    }

    /// Answers whether any source asks to be served. Project rule: Exec reports it by the interrupt that it asks for.
    pub fn any_raised(&self) -> bool
        ensures { result ≡ is_some (highest self.now.latches) }
    {
        self.latches.any()
    }

    /// Clears the latch of the source of highest level among those that ask to be served and answers the source, or
    /// answers none. RKM Libraries, Exec Interrupts: the order of their priorities.
    pub fn serve(&mut self) -> Option<Source>
        ensures value { result ≡ highest self.old.latches }
        ensures next { self.new ≡ served (highest self.old.latches) self.old }
    {
        let source = self.latches.highest()?;
        self.latches = self.latches.with(source, false);
        Some(source)
    }

    /// Answers the server that runs at place `k`, from 0, when a source is served, or none if the source has no more
    /// servers.
    ///
    /// The servers of a source run by priority, and those of one priority in the order of their numbers.
    /// Autodoc exec.library/AddIntServer.
    pub fn server(&self, source: Source, k: usize) -> Option<ServerId>
        ensures value { result ≡ slice_get (chain source self.now.servers) k }
        ensures known { IfSome result (λ s. s < length self.now.servers) }
    {
        server_at(self.chain(source), k)
    }

    // ---- parts

    // The header of a software interrupt.
    fn header(&self, i: IntId) -> HeaderId
        requires { i < length self.now.priorities }
        ensures within { result < 5 }
        ensures same { header_pri result ≡ pri_at self.now.priorities i }
    {
        header_of(self.softs[i].pri)
    }

    // The servers of a source as they are to run.
    fn chain(&self, source: Source) -> &[ServerId]
        ensures { result.now ≡ chain source self.now.servers }
    {
        match source {
            Source::Ports => &self.chains.ports,
            Source::Vertb => &self.chains.vertb,
            Source::Exter => &self.chains.exter,
        }
    }
}
