//! The servers of one source in the order in which they are to run.
ghost use Rattle.std.specs.Prelude.{◌≡◌, ◌<◌, ◌≤◌, length, insert, slice_get, All, IfOk};
ghost use Rattle.execlist.specs.Order.{enqueue};
ghost use Rattle.softint.specs.Interrupts.{chain, serves, server_pri};
ghost use Rattle.softint.specs.declared.source.Source.TheVariants as variant;

use crate::interrupt::Server;
use crate::source::Source;
use std::alloc::{AllocError, Global};

/// The number of a server, from 0.
pub type ServerId = usize;

/// The servers of each source in the order in which they are to run.
#[derive(Drop)]
pub struct Chains {
    pub ports: Vec<ServerId>,
    pub vertb: Vec<ServerId>,
    pub exter: Vec<ServerId>,
}

impl Chains {
    /// The chains of all sources.
    ///
    /// An error means that memory is refused. Autodoc exec.library/AddIntServer.
    pub fn new(alloc: Global, servers: &[Server]) -> Result<Self, AllocError>
        ensures ports { IfOk result (λ chains. chains.ports.items ≡ chain variant.Ports servers.now) }
        ensures vertb { IfOk result (λ chains. chains.vertb.items ≡ chain variant.Vertb servers.now) }
        ensures exter { IfOk result (λ chains. chains.exter.items ≡ chain variant.Exter servers.now) }
    {
        let ports = chain_of(alloc, servers, Source::Ports)?;
        let vertb = chain_of(alloc, servers, Source::Vertb)?;
        let exter = chain_of(alloc, servers, Source::Exter)?;
        Ok(Chains {
            ports,
            vertb,
            exter,
        })
    }
}

/// The servers of a source, by priority, and those of one priority in the order of their numbers.
///
/// An error means that memory is refused. Autodoc exec.library/AddIntServer.
fn chain_of(alloc: Global, servers: &[Server], source: Source) -> Result<Vec<ServerId>, AllocError>
    ensures { IfOk result (λ v. v.items ≡ chain source servers.now) }
{
    let mut chain = Vec::with_capacity(alloc, servers.len())?;
    for s in 0..servers.len() {
        if serves(servers, s, source) {
            let place = place_for(&chain, servers, s);
            chain.insert(place, s)?;
        }
    }
    Ok(chain)
}

// Whether server s is one of that source.
fn serves(servers: &[Server], s: ServerId, source: Source) -> bool
    requires { s < length servers.now }
    ensures { result ≡ serves source servers.now s }
{
    servers[s].source.is(source)
}

// The place of the first server of lower priority than server s, or the end of the chain.
fn place_for(chain: &[ServerId], servers: &[Server], s: ServerId) -> usize
    requires known { All (λ k. k < length servers.now) chain.now }
    requires server { s < length servers.now }
    ensures within { result ≤ length chain.now }
    ensures value { insert chain.now result s ≡ enqueue (server_pri servers.now) chain.now s }
{
    for (i, k) in chain.iter().enumerate() {
        if servers[*k].pri < servers[s].pri {
            return i;
        }
    }
    chain.len()
}

/// The server at a place of a chain, from 0, or none if the chain is shorter.
///
/// Source: RKM Libraries, Exec Interrupts: interrupt servers.
pub fn server_at(chain: &[ServerId], k: usize) -> Option<ServerId>
    ensures { result ≡ slice_get chain.now k }
{
    chain.get(k).copied()
}
