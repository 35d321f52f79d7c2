//! The listener that prints: it alone knows what a line of a trace looks like.
ghost use Rattle.std.specs.Prelude.{◌≡◌};
ghost use Rattle.exectrace.specs.{Heard.heard, Printing.is_good, Printing.printing, Sink.Puts, Trace.printed_line};

use crate::printing::{
    put_alert, put_idle, put_serve, put_server, put_short_call, put_softint, put_switch, put_timer,
};
use crate::sinks::{Sink, SinkState};
use crate::telling::Said;
use crate::witness::Witness;

/// Whether a sink in this state is good.
#[inline(always)]
fn still_good(state: SinkState) -> bool
    ensures { result ≡ is_good state }
{
    match state {
        SinkState::Good => true,
        SinkState::Empty(_) => false,
        SinkState::Failed => false,
    }
}

/// Puts the line of what is said to a sink.
///
/// Source: project rule.
#[inline(always)]
pub fn print<W: Sink>(said: &Said<'_>, out: &mut W)
    ensures { Puts (W.tape out.old) (W.tape out.new) (printed_line (heard said.now)) }
{
    match said {
        Said::Switch(who) => put_switch(who, out),
        Said::Idle => put_idle(out),
        Said::Call {
            by,
            word,
            arguments,
            quoted,
            ends,
        } => put_short_call(by, word.text(), arguments, quoted, *ends, out),
        Said::Serve(source) => put_serve(source.text(), out),
        Said::Timer(request) => put_timer(*request, out),
        Said::Server(who) => put_server(who, out),
        Said::Softint(who) => put_softint(who, out),
        Said::Alert { code, by, word } => put_alert(code.text(), by, word.text(), out),
    }
}

/// Each sink prints what it hears.
impl<W: Sink> Witness for W {
    ghost hearing = { printing };

    ghost told = { W.tape };

    #[inline(always)]
    fn hear(&mut self, said: &Said<'_>) {
        print(said, self);
    }

    #[inline(always)]
    fn is_good(&self) -> bool {
        still_good(self.state())
    }
}
