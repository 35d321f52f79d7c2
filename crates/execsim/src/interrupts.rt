//! Interrupts: how they are caused and requested, and how they run, software interrupts one a step, the servers of a
//! source when it is served (RKM Libraries, Exec Interrupts).
ghost use Rattle.std.specs.Prelude.{◌≡◌, is_some, true, slice_get, ◌∷◌, []};
ghost use Rattle.exectrace.specs.Trace.{Serve};
ghost use Rattle.softint.specs.Sources.{highest, source_text};
ghost use Rattle.execmodel.specs.{Interrupts.chain_of, Interrupts.serving_counted, Interrupts.interrupts, Interrupts.runs_chain, Interrupts.runs_server, Pending.softint_number, Pending.with_latch_of};
ghost use Rattle.execsim.specs.{Actions.caused, Actions.served, Actions.softint_body, Actions.softint_seen, Actions.source_seen, Actions.without_request, Actions.without_softint, Agreement.Follows};

use crate::bodies::Body;
use crate::kernel::Kernel;
use execlist::space::ListSpace;
use exectrace::{Name, Said, Witness};
use softint::caused::IntId;
use softint::chain::ServerId;
use softint::source::Source;

/// How many sources there are.
const SOURCES: u32 = 3;

impl<S: ListSpace> Kernel<S> {
    // ---- causing and requesting

    /// A software interrupt is caused: it is to run after the caused ones of its priority, unless it is caused already.
    /// A number that none has does nothing.
    #[inline(always)]
    pub(crate) fn cause(&mut self, i: IntId)
        ensures { self.new ≡ caused i self.old }
    {
        if i < self.bodies.softint_count() {
            self.ints.cause(i);
        }
    }

    /// The number of the software interrupt of a name; if none has it, a number that none has.
    #[inline(always)]
    pub(crate) fn softint_named(&self, name: &Name) -> IntId
        ensures { result ≡ softint_number name.now.bytes self.now.bodies.softints }
    {
        self.bodies.softint_named(name)
    }

    /// A source asks to be served.
    pub(crate) fn latch(&mut self, source: Source)
        ensures { self.new ≡ record self.old { pending = with_latch_of source true self.old.pending } }
    {
        self.ints.raise(source);
    }

    // ---- software interrupts

    /// The software interrupt that runs next, if interrupts are allowed and one is caused. It is not caused any more.
    #[inline(always)]
    pub(crate) fn take_softint(&mut self) -> Option<IntId>
        ensures answer { result ≡ softint_seen self.old }
        ensures next { self.new ≡ record self.old { pending = without_softint result self.old.pending } }
    {
        if self.ints.any_caused() && self.sched.may_interrupt() {
            self.ints.next()
        } else {
            None
        }
    }

    /// A software interrupt, which is not caused any more, runs its whole body.
    #[inline(never)]
    pub(crate) fn run_softint<W: Witness>(&mut self, i: IntId, out: &mut W)
        ensures { Follows W.hearing (softint_body i) self.old self.new (W.told out.old) (W.told out.new) }
    {
        let body = Body::Softint(i);
        let name = self.bodies.name(body);
        let own = &name;
        out.hear(&Said::Softint(own));
        self.run_body(body, own, out);
    }

    // ---- servers

    /// Server k runs its whole body.
    fn run_server<W: Witness>(&mut self, k: ServerId, out: &mut W)
        ensures { Follows W.hearing (runs_server k) self.old self.new (W.told out.old) (W.told out.new) }
    {
        let body = Body::Server(k);
        let name = self.bodies.name(body);
        let own = &name;
        out.hear(&Said::Server(own));
        self.run_body(body, own, out);
    }

    /// The server at a place of the chain of a source, from 0, or none if the chain is shorter.
    fn server_at(&self, source: Source, place: usize) -> Option<ServerId>
        ensures { result ≡ slice_get (chain_of source self.now.bodies.servers) place }
    {
        self.ints.server(source, place)
    }

    /// The servers of a source run one after another, until one claims the interrupt, or an alert stops the machine.
    fn run_chain<W: Witness>(&mut self, source: Source, out: &mut W)
        ensures { Follows W.hearing (runs_chain (chain_of source self.old.bodies.servers)) self.old self.new (W.told out.old) (W.told out.new) }
    {
        for place in 0..self.bodies.server_count() {
            match self.server_at(source, place) {
                None => return,
                Some(k) => {
                    let last = self.bodies.claims(k);
                    self.run_server(k, out);
                    if last || self.stopped {
                        return;
                    }
                }
            }
        }
    }

    // ---- serving

    /// The source that is served next: the latched one of highest level, if interrupts are allowed. Its latch is
    /// cleared.
    fn take_request(&mut self) -> Option<Source>
        ensures answer { result ≡ source_seen self.old }
        ensures next { self.new ≡ record self.old { pending = without_request result self.old.pending } }
    {
        if self.sched.may_interrupt() {
            self.ints.serve()
        } else {
            None
        }
    }

    /// For VERTB the quantum of the running task loses one serving.
    fn count_serving(&mut self, source: Source)
        ensures { self.new ≡ record self.old { schedule = serving_counted source self.old.schedule } }
    {
        match source {
            Source::Vertb => self.sched.quantum_tick(),
            Source::Ports | Source::Exter => {}
        }
    }

    /// Says that a source is served.
    #[inline(always)]
    fn say_serve<W: Witness>(&self, source: Source, out: &mut W)
        ensures { W.hearing.hears (W.told out.old) (W.told out.new) (Serve (source_text source) ∷ []) }
    {
        out.hear(&Said::Serve(source));
    }

    /// A source is served, whose latch is cleared: VERTB counts the quantum and finishes the requests that are due, and
    /// then the servers run.
    #[inline(never)]
    fn serve<W: Witness>(&mut self, source: Source, out: &mut W)
        ensures { Follows W.hearing (served source) self.old self.new (W.told out.old) (W.told out.new) }
    {
        self.count_serving(source);
        self.say_serve(source, out);
        self.finish_for(source, out);
        self.run_chain(source, out);
    }

    /// Whether any source asks to be served.
    pub(crate) fn any_latched(&self) -> bool
        ensures { result ≡ is_some (highest self.now.pending.latches) }
    {
        self.ints.any_raised()
    }

    /// All sources that ask are served, if interrupts are allowed: there are three sources, and no serving sets a
    /// latch.
    #[inline(never)]
    fn serve_all<W: Witness>(&mut self, out: &mut W)
        ensures { Follows W.hearing interrupts self.old self.new (W.told out.old) (W.told out.new) }
    {
        for _turn in 0..SOURCES {
            match self.take_request() {
                None => return,
                Some(source) => {
                    self.serve(source, out);
                    if self.stopped {
                        return;
                    }
                }
            }
        }
    }

    /// All sources that ask are served, if interrupts are allowed. Mostly none asks, and nothing else is looked at
    /// then.
    #[inline(always)]
    pub(crate) fn interrupt<W: Witness>(&mut self, out: &mut W)
        ensures { Follows W.hearing interrupts self.old self.new (W.told out.old) (W.told out.new) }
    {
        if self.any_latched() {
            self.serve_all(out);
        }
    }
}
