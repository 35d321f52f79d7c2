//! What the software interrupts and the servers execute. Nothing changes it once the machine is made, until it is
//! reset.
ghost use Rattle.std.specs.Prelude.{◌≡◌, ◌↔◌, ◌≢◌, ◌<◌, All, IfOk, length, map, slice_index_or, true, AllPairs};
ghost use Rattle.script.specs.{Commands.command_view, Machines.softint_names, Names.texts};
ghost use Rattle.script.specs.Records as records;
ghost use Rattle.execmodel.specs.{Interrupts.no_server, Interrupts.no_softint, Interrupts.server_at, Pending.softint_number};
ghost use Rattle.execsim.specs.Views.{code_of_body, interrupting, name_of_body, server_view, softint_view};
ghost use Rattle.execsim.specs.Resetting.{AreShaped, server_shape, softint_shape};

use crate::code::{copied_code, copy_code};
use exectrace::Name;
use indexmap::IndexSet;
use script::{Command, ServerRecord, SoftintRecord, Source};
use std::alloc::{AllocError, Global};
use std::marker::Model;

/// How many marks of names there are.
const HINTS: usize = 256;

/// A software interrupt.
#[derive(Drop)]
pub struct Softint {
    pub name: Name,
    pub pri: i8,
    pub code: Vec<Command>,
}

/// A server.
#[derive(Drop)]
pub struct Server {
    pub name: Name,
    /// The source that it serves.
    pub source: Source,
    pub pri: i8,
    /// Whether it ends the chain of its source.
    pub claim: bool,
    pub code: Vec<Command>,
}

/// A body, by the number of its software interrupt or server, from 0 in the order of the file.
#[derive(Clone, Copy)]
pub enum Body {
    Softint(usize),
    Server(usize),
}

/// The software interrupts and the servers of all sources, both in the order of the file.
#[derive(Drop)]
pub struct Bodies {
    softints: Vec<Softint>,
    servers: Vec<Server>,
    // the names of the software interrupts, in the same order
    names: IndexSet<Name>,
    // for the names with one mark each, the number of a software interrupt that may have such a name
    hints: [usize; HINTS],
}

impl Model for Bodies {
    ghost use Rattle.std.specs.Prelude.{◌≡◌, ◌≢◌, map, AllPairs};
    ghost use Rattle.script.specs.{Machines.softint_names, Names.texts};
    ghost use Rattle.execmodel.specs.State as model;
    ghost use Rattle.execsim.specs.Views.{server_view, softint_view};

    ghost Value = { model.Bodies };

    ghost view = { λ b. record { softints = map softint_view b.softints.items; servers = map server_view b.servers.items } };

    ghost invariant = { λ b. (texts b.names.keys ≡ softint_names (map softint_view b.softints.items))
        × AllPairs (λ s t. s ≢ t) (softint_names (map softint_view b.softints.items)) };
}

/// A mark of a name, by its last two bytes and its length.
#[inline(always)]
fn mark_of(name: &Name) -> usize
    ensures { result < 256 }
{
    let bytes = name.as_str().as_bytes();
    let len = bytes.len();
    let last = usize::from(bytes.get(len.wrapping_sub(1)).copied().unwrap_or(0));
    let before = usize::from(bytes.get(len.wrapping_sub(2)).copied().unwrap_or(0));
    (last + before * 16 + len * 64) % HINTS
}

/// For each mark the number of the last software interrupt whose name has it, and else 0.
fn hints_of(softints: &[Softint]) -> [usize; HINTS] {
    let mut hints = [0; HINTS];
    for (i, softint) in softints.iter().enumerate() {
        hints[mark_of(&softint.name)] = i;
    }
    hints
}

/// A software interrupt of a file.
fn softint_of(alloc: Global, softint: &SoftintRecord) -> Result<Softint, AllocError>
    ensures { IfOk result (λ s. softint_view s ≡ records.softint_view softint.now) }
{
    let code = copied_code(alloc, &softint.code)?;
    Ok(Softint {
        name: softint.name,
        pri: softint.pri,
        code,
    })
}

/// The software interrupts of a file, in its order.
fn softints_of(alloc: Global, softints: &[SoftintRecord]) -> Result<Vec<Softint>, AllocError>
    ensures { IfOk result (λ v. map softint_view v.items ≡ map records.softint_view softints.now) }
{
    let mut made = Vec::new(alloc);
    for softint in softints {
        made.push(softint_of(alloc, softint)?)?;
    }
    Ok(made)
}

/// A server of a file.
fn server_of(alloc: Global, server: &ServerRecord) -> Result<Server, AllocError>
    ensures { IfOk result (λ s. server_view s ≡ records.server_view server.now) }
{
    let code = copied_code(alloc, &server.code)?;
    Ok(Server {
        name: server.name,
        source: server.source,
        pri: server.pri,
        claim: server.claim,
        code,
    })
}

/// The servers of a file, in its order.
fn servers_of(alloc: Global, servers: &[ServerRecord]) -> Result<Vec<Server>, AllocError>
    ensures { IfOk result (λ v. map server_view v.items ≡ map records.server_view servers.now) }
{
    let mut made = Vec::new(alloc);
    for server in servers {
        made.push(server_of(alloc, server)?)?;
    }
    Ok(made)
}

/// The names of the software interrupts of a file, in its order: they differ.
fn names_of(alloc: Global, softints: &[SoftintRecord]) -> Result<IndexSet<Name>, AllocError>
    requires { AllPairs (λ s t. s ≢ t) (softint_names (map records.softint_view softints.now)) }
    ensures { IfOk result (λ names. texts names.keys ≡ softint_names (map records.softint_view softints.now)) }
{
    let mut names = IndexSet::with_capacity(alloc, softints.len())?;
    for softint in softints {
        names.insert(softint.name)?;
    }
    Ok(names)
}

/// Whether a software interrupt has the name and the priority of one of a file.
fn is_alike(softint: &Softint, file: &SoftintRecord) -> bool
    ensures { (result ≡ true) ↔ ((softint.now.name.bytes ≡ file.now.name.bytes) × (softint.now.pri ≡ file.now.pri)) }
{
    softint.name.as_str() == file.name.as_str() && softint.pri == file.pri
}

/// Gives a software interrupt the commands of one of a file, if it has its name, its priority and as many commands, and
/// answers whether it has.
fn reset_softint(softint: &mut Softint, file: &SoftintRecord) -> bool
    ensures answer { (result ≡ true) ↔ (softint_shape (softint_view softint.old) ≡ softint_shape (records.softint_view file.now)) }
    ensures kept { softint_shape (softint_view softint.new) ≡ softint_shape (softint_view softint.old) }
    ensures same { result ≡ true → softint_view softint.new ≡ records.softint_view file.now }
    ensures name { softint.new.name ≡ softint.old.name }
    ensures pri { softint.new.pri ≡ softint.old.pri }
{
    if !is_alike(softint, file) {
        return false;
    }
    copy_code(&file.code, &mut softint.code)
}

/// Gives the software interrupts the commands of those of a file, if all else is the same, and answers whether it is.
fn reset_softints(softints: &mut Vec<Softint>, file: &[SoftintRecord]) -> bool
    ensures answer { (result ≡ true) ↔ (map softint_shape (map softint_view softints.old.items) ≡ map softint_shape (map records.softint_view file.now)) }
    ensures same { result ≡ true → map softint_view softints.new.items ≡ map records.softint_view file.now }
    ensures names { softint_names (map softint_view softints.new.items) ≡ softint_names (map softint_view softints.old.items) }
    ensures pris { map (λ s. s.pri) (map softint_view softints.new.items) ≡ map (λ s. s.pri) (map softint_view softints.old.items) }
{
    if softints.len() != file.len() {
        return false;
    }
    for i in 0..file.len() {
        if !reset_softint(&mut softints[i], &file[i]) {
            return false;
        }
    }
    true
}

/// Whether a server has the name, the source and the priority of one of a file, and ends the chain of its source as
/// that one does.
fn is_alike_server(server: &Server, file: &ServerRecord) -> bool
    ensures { (result ≡ true) ↔ ((server.now.name.bytes ≡ file.now.name.bytes) × (server.now.source ≡ file.now.source)
        × (server.now.pri ≡ file.now.pri) × (server.now.claim ≡ file.now.claim)) }
{
    server.name.as_str() == file.name.as_str()
        && server.source == file.source
        && server.pri == file.pri
        && server.claim == file.claim
}

/// Gives a server the commands of one of a file, if all else is the same and it has as many commands, and answers
/// whether it is.
fn reset_server(server: &mut Server, file: &ServerRecord) -> bool
    ensures answer { (result ≡ true) ↔ (server_shape (server_view server.old) ≡ server_shape (records.server_view file.now)) }
    ensures kept { server_shape (server_view server.new) ≡ server_shape (server_view server.old) }
    ensures same { result ≡ true → server_view server.new ≡ records.server_view file.now }
    ensures source { server.new.source ≡ server.old.source }
    ensures pri { server.new.pri ≡ server.old.pri }
{
    if !is_alike_server(server, file) {
        return false;
    }
    copy_code(&file.code, &mut server.code)
}

/// Gives the servers the commands of those of a file, if all else is the same, and answers whether it is.
fn reset_servers(servers: &mut Vec<Server>, file: &[ServerRecord]) -> bool
    ensures answer { (result ≡ true) ↔ (map server_shape (map server_view servers.old.items) ≡ map server_shape (map records.server_view file.now)) }
    ensures same { result ≡ true → map server_view servers.new.items ≡ map records.server_view file.now }
    ensures kept { map interrupting (map server_view servers.new.items) ≡ map interrupting (map server_view servers.old.items) }
{
    if servers.len() != file.len() {
        return false;
    }
    for k in 0..file.len() {
        if !reset_server(&mut servers[k], &file[k]) {
            return false;
        }
    }
    true
}

/// Whether two texts have the same bytes, which are compared one after another.
#[tactic(auto, using(std::proofs::lemmas::List::take_more_same))]
#[inline(always)]
fn same_bytes(one: &[u8], other: &[u8]) -> bool
    ensures { result ≡ true → one.now ≡ other.now }
{
    if one.len() != other.len() {
        return false;
    }
    for k in 0..one.len() {
        if one[k] != other[k] {
            return false;
        }
    }
    true
}

/// Whether a software interrupt has this name. A short name is compared byte by byte, with no call.
#[inline(always)]
fn is_called(softint: &Softint, name: &Name) -> bool
    ensures { result ≡ true → softint.now.name.bytes ≡ name.now.bytes }
{
    let own = softint.name.as_str();
    if own.len() < 8 {
        same_bytes(own.as_bytes(), name.as_str().as_bytes())
    } else {
        own == name.as_str()
    }
}

/// Whether software interrupt i has this name.
#[inline(always)]
fn has_name(softints: &[Softint], i: usize, name: &Name) -> bool
    ensures inside { result ≡ true → i < length softints.now }
    ensures same { result ≡ true → (slice_index_or (map softint_view softints.now) i no_softint).name ≡ name.now.bytes }
{
    match softints.get(i) {
        Some(softint) => is_called(softint, name),
        None => false,
    }
}

#[inline(always)]
fn softint_name(softints: &[Softint], i: usize) -> Name
    ensures { result.bytes ≡ (slice_index_or (map softint_view softints.now) i no_softint).name }
{
    match softints.get(i) {
        Some(softint) => softint.name,
        None => Name::new(),
    }
}

#[inline(always)]
fn softint_code(softints: &[Softint], i: usize) -> &[Command]
    ensures { map command_view result.now ≡ (slice_index_or (map softint_view softints.now) i no_softint).code }
{
    match softints.get(i) {
        Some(softint) => &softint.code,
        None => &[],
    }
}

#[inline(always)]
fn server_name(servers: &[Server], k: usize) -> Name
    ensures { result.bytes ≡ (slice_index_or (map server_view servers.now) k no_server).name }
{
    match servers.get(k) {
        Some(server) => server.name,
        None => Name::new(),
    }
}

#[inline(always)]
fn server_code(servers: &[Server], k: usize) -> &[Command]
    ensures { map command_view result.now ≡ (slice_index_or (map server_view servers.now) k no_server).code }
{
    match servers.get(k) {
        Some(server) => &server.code,
        None => &[],
    }
}

fn server_claims(servers: &[Server], k: usize) -> bool
    ensures { result ≡ (slice_index_or (map server_view servers.now) k no_server).claim }
{
    match servers.get(k) {
        Some(server) => server.claim,
        None => false,
    }
}

impl Bodies {
    /// The software interrupts and the servers of a file.
    pub fn new(
        alloc: Global,
        softints: &[SoftintRecord],
        servers: &[ServerRecord],
    ) -> Result<Bodies, AllocError>
        requires names { AllPairs (λ s t. s ≢ t) (softint_names (map records.softint_view softints.now)) }
        ensures { IfOk result (λ b. b ≡ record {
          softints = map records.softint_view softints.now;
          servers = map records.server_view servers.now;
        }) }
    {
        let names = names_of(alloc, softints)?;
        let softints = softints_of(alloc, softints)?;
        let servers = servers_of(alloc, servers)?;
        let hints = hints_of(&softints);
        Ok(Bodies {
            softints,
            servers,
            names,
            hints,
        })
    }

    /// Makes the software interrupts and the servers those of a file, if they have its names, sources, priorities and
    /// numbers of commands, and answers whether they have. The sources and priorities stay as they are.
    ///
    /// Source: project rule.
    pub fn reset(&mut self, softints: &[SoftintRecord], servers: &[ServerRecord]) -> bool
        ensures answer { (result ≡ true) ↔ AreShaped (map records.softint_view softints.now) (map records.server_view servers.now) self.old }
        ensures same { result ≡ true → self.new ≡ record {
          softints = map records.softint_view softints.now;
          servers = map records.server_view servers.now;
        } }
        ensures pris { map (λ s. s.pri) self.new.softints ≡ map (λ s. s.pri) self.old.softints }
        ensures sources { map interrupting self.new.servers ≡ map interrupting self.old.servers }
    {
        reset_softints(&mut self.softints, softints) && reset_servers(&mut self.servers, servers)
    }

    /// The number of the software interrupt of a name, as it was looked up; if none has it, a number that none has.
    #[cold]
    #[inline(never)]
    fn softint_found(&self, name: &Name) -> usize
        ensures { result ≡ softint_number name.now.bytes self.now.softints }
    {
        match self.names.get_index_of(name) {
            Some(index) => index,
            None => self.names.len(),
        }
    }

    /// The number of the software interrupt of a name; if none has it, a number that none has. Mostly the hint for the
    /// name is right.
    #[inline(always)]
    pub fn softint_named(&self, name: &Name) -> usize
        ensures { result ≡ softint_number name.now.bytes self.now.softints }
    {
        let hint = self.hints[mark_of(name)];
        if has_name(&self.softints, hint, name) {
            hint
        } else {
            self.softint_found(name)
        }
    }

    /// How many software interrupts there are.
    pub fn softint_count(&self) -> usize
        ensures { result ≡ length self.now.softints }
    {
        self.softints.len()
    }

    /// How many servers there are.
    pub fn server_count(&self) -> usize
        ensures { result ≡ length self.now.servers }
    {
        self.servers.len()
    }

    /// Whether server k ends the chain of its source.
    ///
    /// Source: autodoc exec.library/AddIntServer: a server that answers other than 0 ends its chain.
    pub fn claims(&self, k: usize) -> bool
        ensures { result ≡ (server_at k self.now).claim }
    {
        server_claims(&self.servers, k)
    }

    /// The name of a body; an empty one if there is none of that number.
    #[inline(always)]
    pub fn name(&self, body: Body) -> Name
        ensures { result.bytes ≡ name_of_body body self.now }
    {
        match body {
            Body::Softint(i) => softint_name(&self.softints, i),
            Body::Server(k) => server_name(&self.servers, k),
        }
    }

    /// The commands of a body; none if there is none of that number.
    #[inline(always)]
    pub fn code(&self, body: Body) -> &[Command]
        ensures { map command_view result.now ≡ code_of_body body self.now }
    {
        match body {
            Body::Softint(i) => softint_code(&self.softints, i),
            Body::Server(k) => server_code(&self.servers, k),
        }
    }
}
