//! Events: what an event text asks the machine to do.
ghost use Rattle.std.specs.Prelude.{◌≡◌};
ghost use Rattle.script.specs.Events.{event_steps, event_ticks, AreWithin};

use softint::source::Source;
use std::marker::Model;

/// One event.
#[derive(Clone, Copy, PartialEq, Eq)]
pub enum Event {
    /// That many steps, each followed by a settle: 1 to 1,000,000.
    Run(u32),
    /// That many ticks of the vertical blank, each followed by a settle: 1 to 1,000,000.
    Tick(u32),
    /// One request of an interrupt by that source, PORTS or EXTER, followed by a settle.
    Irq(Source),
}

impl Event {
    /// The steps that the event asks for.
    pub fn steps(self) -> u32
        ensures { result ≡ event_steps self }
    {
        match self {
            Event::Run(n) => n,
            Event::Tick(_) | Event::Irq(_) => 0,
        }
    }

    /// The ticks that the event asks for.
    pub fn ticks(self) -> u32
        ensures { result ≡ event_ticks self }
    {
        match self {
            Event::Run(_) | Event::Irq(_) => 0,
            Event::Tick(n) => n,
        }
    }
}

/// The events of a text, in their order.
///
/// Each asks for at least one turn, there are at most 100,000, and their steps and their ticks sum to at
/// most 1,000,000 each.
#[derive(Drop)]
pub struct Events {
    list: Vec<Event>,
}

impl Model for Events {
    ghost use Rattle.std.specs.Prelude.{List};
    ghost use Rattle.script.specs.{Events.AreWithin, declared.event.Event.Event};

    ghost Value = { List Event };

    ghost view = { λ e. e.list.items };

    ghost invariant = { λ e. AreWithin e.list.items };
}

impl Events {
    /// Events that are within the limits.
    pub fn new(list: Vec<Event>) -> Events
        requires { AreWithin list.items }
        ensures { result ≡ list.items }
    {
        Events { list }
    }

    /// The events, in their order.
    pub fn list(&self) -> &[Event]
        ensures events { result.now ≡ self.now }
        ensures within { AreWithin self.now }
    {
        &self.list
    }
}
