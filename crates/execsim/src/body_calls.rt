//! The calls that a body makes, how they end, and a whole body. A body has the shared variables alone, prints under its
//! own name, and runs to its end at once, or to an alert.
ghost use Rattle.std.specs.Prelude.{◌≡◌, ◌≤◌, ℕ, List, [], ◌∷◌, IfSome, None, Some, true, map, slice_get, take};
ghost use Rattle.execlist.specs.Disciplines.{by_priority};
ghost use Rattle.exectrace.specs.{Short.short_argument, Shown.shown_outcome, Trace.Quoted, Trace.Value};
ghost use Rattle.exectrace.specs.Trace as trace;
ghost use Rattle.script.specs.{Words.word_text, Commands.argument_view, Commands.command_view};
ghost use Rattle.scheduler.specs.Dispatch.{signalled};
ghost use Rattle.execmodel.specs.{Bodies.does_in_body, Bodies.does_interrupts_by, Bodies.does_plain_by, Bodies.does_ports_by, Bodies.does_signals_by, Bodies.runs_body, State.Scripts, State.State, Calls.ByBody, Calls.alerted_by, Calls.answered_by, Calls.argument, Calls.call_in_body, Calls.done_by, Calls.evaluated_in_body, Calls.argument_number, Calls.silent_by, Calls.stored_shared};
ghost use Rattle.execmodel.specs.State as model;
ghost use Rattle.execmodel.specs.Calls as calls;
ghost use Rattle.execsim.specs.{Agreement.Quietly, Actions.caused, Actions.does_at_place, Agreement.Follows, Agreement.Seen, Callers.HasTask, Views.call_view, Views.code_of_body};

use crate::bodies::Body;
use crate::call::{Call, Caller};
use crate::change::argument_at;
use crate::kernel::Kernel;
use crate::plain::{all_bits, common_bits, difference, sum};
use crate::progress::command_at;
use crate::task_signals::is_mask;
use execlist::space::ListSpace;
use exectrace::lines::CallOutcome;
use exectrace::{Name, Said, ShortArg, Witness};
use script::{
    Alert, Argument, Command, InterruptWord, PlainWord, PortWord, SignalWord, Variable, Word,
};
use softint::caused::IntId;
use taskq::TaskId;

/// A signalling that a body makes: the task receives the signals of the mask.
#[derive(Clone, Copy)]
struct Sent {
    task: TaskId,
    mask: u32,
}

/// Whether it is the word Signal.
fn is_signal(word: Word) -> bool
    ensures { result ≡ true → word ≡ Word.Signals SignalWord.Signal }
{
    match word {
        Word::Signals(SignalWord::Signal) => true,
        _ => false,
    }
}

/// Whether it is the word Print.
fn is_print(word: Word) -> bool
    ensures { result ≡ true → word ≡ Word.Plain PlainWord.Print }
{
    match word {
        Word::Plain(PlainWord::Print) => true,
        _ => false,
    }
}

/// Whether it is the word Cause.
pub(crate) fn is_cause(word: Word) -> bool
    ensures { result ≡ true → word ≡ Word.Interrupts InterruptWord.Cause }
{
    match word {
        Word::Interrupts(InterruptWord::Cause) => true,
        _ => false,
    }
}

/// Whether a command has one argument, and that is a name.
#[inline(always)]
fn has_name_alone(command: &Command) -> bool
    ensures { result ≡ true → (scripts : Scripts)
        → (call_in_body (command_view command.now) scripts).arguments ≡ Quoted command.now.name.bytes ∷ [] }
{
    if command.count != 1 {
        return false;
    }
    match argument_at(command, 0) {
        Some(Argument::Quoted) => true,
        _ => false,
    }
}

/// The numbers that two arguments are, if neither is a name.
#[inline(always)]
fn both(one: ShortArg, two: ShortArg) -> Option<(u32, u32)>
    ensures first { IfSome result (λ pair. one ≡ ShortArg.Value pair.0) }
    ensures second { IfSome result (λ pair. two ≡ ShortArg.Value pair.1) }
{
    match one {
        ShortArg::Quoted => None,
        ShortArg::Value(a) => match two {
            ShortArg::Quoted => None,
            ShortArg::Value(b) => Some((a, b)),
        },
    }
}

impl<S: ListSpace> Kernel<S> {
    // ---- the values of arguments

    /// The value of an argument in a body.
    #[inline(always)]
    fn evaluate_in_body(&self, argument: Argument) -> ShortArg
        ensures { (name : List ℕ) → short_argument name result ≡ evaluated_in_body self.now.scripts (argument_view name argument) }
    {
        match argument {
            Argument::Number(n) => ShortArg::Value(n),
            Argument::Variable(Variable::Private(_)) => ShortArg::Value(0),
            Argument::Variable(Variable::Shared(k)) => ShortArg::Value(self.shared_content(
                k as usize,
            )),
            Argument::Quoted => ShortArg::Quoted,
            Argument::Place(place) => ShortArg::Value(place),
        }
    }

    /// Puts the values of the first `count` arguments of a command of a body if they are to be; what is past them is
    /// unused.
    #[inline(always)]
    fn evaluate_all_in_body(
        &self,
        arguments: &[Argument; 4],
        count: usize,
        values: &mut [ShortArg; 4],
    )
        requires few { count ≤ 4 }
        ensures { (name : List ℕ) → map (short_argument name) (take count values.new)
            ≡ map (λ a. evaluated_in_body self.now.scripts (argument_view name a)) (take count arguments.now) }
    {
        for k in 0..count {
            values[k] = self.evaluate_in_body(arguments[k]);
        }
    }

    // ---- a plain word that prints nothing

    /// The number that an argument is in a body; 0 for a name.
    #[inline(always)]
    fn number_in_body(&self, argument: Argument) -> u32
        ensures { (name : List ℕ) → result ≡ argument_number (Some (evaluated_in_body self.now.scripts (argument_view name argument))) }
    {
        match self.evaluate_in_body(argument) {
            ShortArg::Value(n) => n,
            ShortArg::Quoted => 0,
        }
    }

    /// The number at an argument of a command of a body, counted from 0; 0 if there is none.
    #[inline(always)]
    fn number_at_in_body(&self, command: &Command, k: usize) -> u32
        ensures { result ≡ argument k (call_in_body (command_view command.now) self.now.scripts) }
    {
        match argument_at(command, k) {
            Some(argument) => self.number_in_body(*argument),
            None => 0,
        }
    }

    /// The value that a plain word stores in a body; none for one that prints or jumps.
    #[inline(always)]
    fn plain_value_in_body(&self, word: PlainWord, command: &Command) -> Option<u32>
        ensures { IfSome result (λ value. (by : calls.Caller) (s : State)
            → does_plain_by word by (call_in_body (command_view command.now) self.now.scripts) s
            ≡ silent_by by (call_in_body (command_view command.now) self.now.scripts) value s) }
    {
        let first = self.number_at_in_body(command, 0);
        let second = self.number_at_in_body(command, 1);
        match word {
            PlainWord::Set => Some(first),
            PlainWord::Add => Some(sum(first, second)),
            PlainWord::Sub => Some(difference(first, second)),
            PlainWord::And => Some(common_bits(first, second)),
            PlainWord::Or => Some(all_bits(first, second)),
            PlainWord::Jump | PlainWord::JumpZ | PlainWord::JumpNZ | PlainWord::Print => None,
        }
    }

    /// The value that a command of a body stores, if it is of a plain word that prints nothing.
    #[inline(always)]
    fn value_in_body(&self, command: &Command) -> Option<u32>
        ensures { IfSome result (λ value. (name : List ℕ) (s : State)
            → does_in_body name (call_in_body (command_view command.now) self.now.scripts) s
            ≡ silent_by (ByBody name) (call_in_body (command_view command.now) self.now.scripts) value s) }
    {
        match command.word {
            Word::Plain(PlainWord::Print) => None,
            Word::Plain(word) => self.plain_value_in_body(word, command),
            _ => None,
        }
    }

    // ---- how it ends

    /// Prints the line of a call of the body of that name.
    fn say_in_body<W: Witness>(&self, name: &Name, call: &Call, outcome: CallOutcome, out: &mut W)
        ensures { W.hearing.hears (W.told out.old) (W.told out.new)
            ((trace.Call name.now.bytes (word_text call.now.word) (call_view call.now).arguments (shown_outcome outcome)) ∷ []) }
    {
        out.hear(&Said::Call {
            by: name,
            word: call.word,
            arguments: call.shown(),
            quoted: &call.quoted,
            ends: outcome,
        });
    }

    /// A shared variable, or none, is given a value; a body has no variables of its own.
    #[inline(always)]
    fn store_in_body(&mut self, target: Option<Variable>, value: u32)
        ensures { self.new ≡ record self.old { scripts = stored_shared target value self.old.scripts } }
    {
        match target {
            None => {}
            Some(Variable::Private(_)) => {}
            Some(Variable::Shared(k)) => self.store_shared(k as usize, value),
        }
    }

    /// The call answers nothing, and the body goes on.
    pub(crate) fn end_call_in_body<W: Witness>(&mut self, name: &Name, call: &Call, out: &mut W)
        ensures { Follows W.hearing (done_by (ByBody name.now.bytes) (call_view call.now)) self.old self.new (W.told out.old) (W.told out.new) }
    {
        self.say_in_body(name, call, CallOutcome::Done, out);
    }

    /// The call answers, into its target if it has one, and the body goes on.
    pub(crate) fn answer_in_body<W: Witness>(
        &mut self,
        name: &Name,
        call: &Call,
        value: u32,
        out: &mut W,
    )
        ensures { Follows W.hearing (answered_by (ByBody name.now.bytes) (call_view call.now) value) self.old self.new (W.told out.old) (W.told out.new) }
    {
        self.say_in_body(name, call, CallOutcome::Answers(value), out);
        self.store_in_body(call.target, value);
    }

    /// A word that is not a call of Exec answers, into its target if it has one, and prints nothing, in the body of any
    /// name.
    #[inline(always)]
    pub(crate) fn end_silently_in_body(&mut self, target: Option<Variable>, value: u32)
        ensures { (name : List ℕ) (call : model.Call) → call.target ≡ target
            → Quietly (silent_by (ByBody name) call value) self.old self.new }
    {
        self.store_in_body(target, value);
    }

    /// The call is refused: it changes nothing, and the machine stops for good.
    pub(crate) fn alert_in_body<W: Witness>(
        &mut self,
        code: Alert,
        name: &Name,
        call: &Call,
        out: &mut W,
    )
        ensures { Follows W.hearing (alerted_by code (ByBody name.now.bytes) (call_view call.now)) self.old self.new (W.told out.old) (W.told out.new) }
    {
        out.hear(&Said::Alert {
            code,
            by: name,
            word: call.word,
        });
        self.stop();
    }

    // ---- the words that a body may have

    fn does_plain_in_body<W: Witness>(
        &mut self,
        word: PlainWord,
        name: &Name,
        call: &Call,
        out: &mut W,
    )
        ensures { Follows W.hearing (does_plain_by word (ByBody name.now.bytes) (call_view call.now)) self.old self.new (W.told out.old) (W.told out.new) }
    {
        match word {
            PlainWord::Set => self.set(&Caller::Body(*name), call),
            PlainWord::Add => self.add_words(&Caller::Body(*name), call),
            PlainWord::Sub => self.sub_words(&Caller::Body(*name), call),
            PlainWord::And => self.and_words(&Caller::Body(*name), call),
            PlainWord::Or => self.or_words(&Caller::Body(*name), call),
            PlainWord::Print => self.end_call_in_body(name, call, out),
            PlainWord::Jump | PlainWord::JumpZ | PlainWord::JumpNZ => {}
        }
    }

    #[inline(always)]
    fn does_signals_in_body<W: Witness>(
        &mut self,
        word: SignalWord,
        name: &Name,
        call: &Call,
        out: &mut W,
    )
        ensures { Follows W.hearing (does_signals_by word (ByBody name.now.bytes) (call_view call.now)) self.old self.new (W.told out.old) (W.told out.new) }
    {
        match word {
            SignalWord::Signal => self.signal(&Caller::Body(*name), call, out),
            _ => {}
        }
    }

    fn does_ports_in_body<W: Witness>(
        &mut self,
        word: PortWord,
        name: &Name,
        call: &Call,
        out: &mut W,
    )
        ensures { Follows W.hearing (does_ports_by word (ByBody name.now.bytes) (call_view call.now)) self.old self.new (W.told out.old) (W.told out.new) }
    {
        match word {
            PortWord::PutMsg => self.put_msg(&Caller::Body(*name), call, out),
            PortWord::GetMsg => self.get_msg(&Caller::Body(*name), call, out),
            PortWord::ReplyMsg => self.reply_msg(&Caller::Body(*name), call, out),
            _ => {}
        }
    }

    fn does_interrupts_in_body<W: Witness>(
        &mut self,
        word: InterruptWord,
        name: &Name,
        call: &Call,
        out: &mut W,
    )
        ensures { Follows W.hearing (does_interrupts_by word (ByBody name.now.bytes) (call_view call.now)) self.old self.new (W.told out.old) (W.told out.new) }
    {
        match word {
            InterruptWord::Cause => self.cause_named(&Caller::Body(*name), call, out),
        }
    }

    /// A call of the body of that name, by the group of its word.
    #[tactic(auto, unfolding(execmodel::specs::Bodies::does_in_body))]
    #[inline(always)]
    fn does_in_body<W: Witness>(&mut self, name: &Name, call: &Call, out: &mut W)
        ensures { Follows W.hearing (does_in_body name.now.bytes (call_view call.now)) self.old self.new (W.told out.old) (W.told out.new) }
    {
        match call.word {
            Word::Plain(word) => self.does_plain_in_body(word, name, call, out),
            Word::Signals(word) => self.does_signals_in_body(word, name, call, out),
            Word::Ports(word) => self.does_ports_in_body(word, name, call, out),
            Word::Interrupts(word) => self.does_interrupts_in_body(word, name, call, out),
            _ => {}
        }
    }

    /// Prints the line of a call that answers nothing, of the body of that name, from its command, whose word has this
    /// text: no call is made of it.
    #[cold]
    #[inline(never)]
    fn line_in_body<W: Witness>(&self, word: Word, command: &Command, name: &Name, out: &mut W)
        ensures { W.hearing.hears (W.told out.old) (W.told out.new)
            (trace.Call name.now.bytes (word_text word) (call_in_body (command_view command.now) self.now.scripts).arguments trace.Done ∷ []) }
    {
        let count = command.count as usize;
        let mut values = [ShortArg::Value(0); 4];
        self.evaluate_all_in_body(&command.arguments, count, &mut values);
        let shown = &values[..count];
        out.hear(&Said::Call {
            by: name,
            word: word,
            arguments: shown,
            quoted: &command.name,
            ends: CallOutcome::Done,
        });
    }

    /// Prints the line of a call that mostly has one argument, as `line_in_body` does. One argument is put in no list
    /// of values.
    #[inline(always)]
    fn short_line_in_body<W: Witness>(
        &self,
        word: Word,
        command: &Command,
        name: &Name,
        out: &mut W,
    )
        ensures { W.hearing.hears (W.told out.old) (W.told out.new)
            (trace.Call name.now.bytes (word_text word) (call_in_body (command_view command.now) self.now.scripts).arguments trace.Done ∷ []) }
    {
        if command.count != 1 {
            self.line_in_body(word, command, name, out);
            return;
        }
        match argument_at(command, 0) {
            None => self.line_in_body(word, command, name, out),
            Some(argument) => {
                let value = self.evaluate_in_body(*argument);
                out.hear(&Said::Call {
                    by: name,
                    word: word,
                    arguments: &[value],
                    quoted: &command.name,
                    ends: CallOutcome::Done,
                });
            }
        }
    }

    /// The two numbers that are the arguments of a command in a body, if it has two and neither is a name.
    #[inline(always)]
    fn pair_in_body(&self, command: &Command) -> Option<(u32, u32)>
        ensures { IfSome result (λ pair.
            (call_in_body (command_view command.now) self.now.scripts).arguments ≡ Value pair.0 ∷ Value pair.1 ∷ []) }
    {
        if command.count != 2 {
            return None;
        }
        match argument_at(command, 0) {
            None => None,
            Some(first) => match argument_at(command, 1) {
                None => None,
                Some(second) => {
                    let one = self.evaluate_in_body(*first);
                    let two = self.evaluate_in_body(*second);
                    both(one, two)
                }
            },
        }
    }

    /// The signalling of a command of the body of that name, if it is of the word Signal and is not refused. Then its
    /// line is printed.
    #[inline(always)]
    fn signalling_in_body<W: Witness>(
        &self,
        command: &Command,
        name: &Name,
        out: &mut W,
    ) -> Option<Sent>
        ensures known { IfSome result (λ sent. HasTask sent.task self.now) }
        ensures sent { IfSome result (λ sent. (n : Seen) → n ≡ record self.now { schedule = signalled by_priority sent.task sent.mask self.now.schedule }
            → Follows W.hearing (does_in_body name.now.bytes (call_in_body (command_view command.now) self.now.scripts)) self.now n (W.told out.old) (W.told out.new)) }
        ensures nothing { result ≡ None → W.told out.new ≡ W.told out.old }
    {
        if !is_signal(command.word) {
            return None;
        }
        match self.pair_in_body(command) {
            None => None,
            Some(pair) => {
                let other = pair.0;
                let mask = pair.1;
                if !self.is_task(other) {
                    return None;
                }
                if !is_mask(mask) {
                    return None;
                }
                let shown = [ShortArg::Value(other), ShortArg::Value(mask)];
                out.hear(&Said::Call {
                    by: name,
                    word: Word::Signals(SignalWord::Signal),
                    arguments: &shown,
                    quoted: &command.name,
                    ends: CallOutcome::Done,
                });
                Some(Sent {
                    task: other as usize - 1,
                    mask,
                })
            }
        }
    }

    /// The number of the software interrupt that a command of the body of that name causes, if it is of the word Cause
    /// and its argument is a name. Then its line is printed.
    #[inline(always)]
    fn causing_in_body<W: Witness>(
        &self,
        command: &Command,
        name: &Name,
        out: &mut W,
    ) -> Option<IntId>
        ensures causes { IfSome result (λ i. (n : Seen) → n ≡ caused i self.now
            → Follows W.hearing (does_in_body name.now.bytes (call_in_body (command_view command.now) self.now.scripts)) self.now n (W.told out.old) (W.told out.new)) }
        ensures nothing { result ≡ None → W.told out.new ≡ W.told out.old }
    {
        if !is_cause(command.word) {
            return None;
        }
        if !has_name_alone(command) {
            return None;
        }
        let own = &command.name;
        let i = self.softint_named(own);
        out.hear(&Said::Call {
            by: name,
            word: Word::Interrupts(InterruptWord::Cause),
            arguments: &[ShortArg::Quoted],
            quoted: own,
            ends: CallOutcome::Done,
        });
        Some(i)
    }

    // ---- a whole body

    /// The command at a place of a body is done by its call, unless an alert has stopped the machine.
    #[inline(never)]
    fn call_at_place<W: Witness>(&mut self, body: Body, place: usize, name: &Name, out: &mut W)
        ensures { Follows W.hearing (does_at_place name.now.bytes (slice_get (code_of_body body self.old.bodies) place))
            self.old self.new (W.told out.old) (W.told out.new) }
    {
        if self.stopped {
            return;
        }
        match command_at(self.bodies.code(body), place) {
            None => {}
            Some(command) => {
                let count = command.count as usize;
                let mut call = Call {
                    word: command.word,
                    target: command.target,
                    arguments: [ShortArg::Value(0); 4],
                    count,
                    quoted: command.name,
                    next: 0,
                    awaited: 0,
                };
                self.evaluate_all_in_body(&command.arguments, count, &mut call.arguments);
                self.does_in_body(name, &call, out);
            }
        }
    }

    /// The command at a place of a body is done, unless an alert has stopped the machine. A Signal is done at once if
    /// it is not refused, and so is a Cause.
    #[inline(always)]
    fn ask_at_place<W: Witness>(&mut self, body: Body, place: usize, name: &Name, out: &mut W)
        ensures { Follows W.hearing (does_at_place name.now.bytes (slice_get (code_of_body body self.old.bodies) place))
            self.old self.new (W.told out.old) (W.told out.new) }
    {
        if self.stopped {
            return;
        }
        match command_at(self.bodies.code(body), place) {
            None => {}
            Some(command) => match self.signalling_in_body(command, name, out) {
                Some(sent) => self.signal_task(sent.task, sent.mask),
                None => match self.causing_in_body(command, name, out) {
                    Some(i) => self.cause(i),
                    None => self.call_at_place(body, place, name, out),
                },
            },
        }
    }

    /// The command at a place of a body is done, unless an alert has stopped the machine. A plain word that prints
    /// nothing, and Print, are done at once: no call is made of them, and none has room here.
    #[inline(always)]
    fn do_place<W: Witness>(&mut self, body: Body, place: usize, name: &Name, out: &mut W)
        ensures { Follows W.hearing (does_at_place name.now.bytes (slice_get (code_of_body body self.old.bodies) place))
            self.old self.new (W.told out.old) (W.told out.new) }
    {
        if self.stopped {
            return;
        }
        match command_at(self.bodies.code(body), place) {
            None => {}
            Some(command) => match self.value_in_body(command) {
                Some(value) => {
                    let target = command.target;
                    self.end_silently_in_body(target, value);
                }
                None => {
                    if is_print(command.word) {
                        self.short_line_in_body(Word::Plain(PlainWord::Print), command, name, out);
                        return;
                    }
                    self.ask_at_place(body, place, name, out);
                }
            },
        }
    }

    /// A whole body, of that name: its commands one after another; after an alert there is no other.
    #[inline(always)]
    pub(crate) fn run_body<W: Witness>(&mut self, body: Body, name: &Name, out: &mut W)
        ensures { Follows W.hearing (runs_body name.now.bytes (code_of_body body self.old.bodies)) self.old self.new (W.told out.old) (W.told out.new) }
    {
        for place in 0..self.bodies.code(body).len() {
            self.do_place(body, place, name, out);
        }
    }
}
