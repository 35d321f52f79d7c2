//! Plain words: a task does them on its command itself, with no call between.
ghost use Rattle.std.specs.Prelude.{◌≡◌, ℕ, List, IfSome, IsTrue, None, Some, false, option_copied, slice_get, take, ◌∷◌, []};
ghost use Rattle.exectrace.specs.{Trace.Done};
ghost use Rattle.script.specs.{declared.word.Word.TheVariants.Plain, Commands.argument_view, Commands.command_view};
ghost use Rattle.execmodel.specs.{State.State, Calls.argument, Calls.call_of, Calls.evaluated, Calls.goes_on, Calls.next_call, Calls.argument_number, Calls.stored, Step.call_step, Step.does, Step.task_step};
ghost use Rattle.execsim.specs.{Agreement.Quietly, Callers.HasTask, Changes.ChangesScripts, Changes.PutsPrint, Changes.changes, Agreement.Follows, Agreement.line_seen};

use crate::kernel::Kernel;
use crate::plain::{all_bits, common_bits, difference, place_at_zero, sum};
use execlist::space::ListSpace;
use exectrace::lines::CallOutcome;
use exectrace::{Said, ShortArg, Witness};
use script::{Argument, Command, PlainWord, Variable, Word};
use taskq::TaskId;

/// What a plain word that prints nothing changes: a variable of its task, or none, is given a value, and the task goes
/// on.
#[derive(Clone, Copy)]
pub struct Change {
    pub target: Option<Variable>,
    pub value: u32,
    /// The place of the command at which the task goes on.
    pub next: usize,
}

/// The argument of a command, counted from 0, if it has that many.
#[inline(always)]
pub(crate) fn argument_at(command: &Command, k: usize) -> Option<&Argument>
    ensures { option_copied result ≡ slice_get (take command.now.count command.now.arguments) k }
{
    command.arguments[..command.count as usize].get(k)
}

impl<S: ListSpace> Kernel<S> {
    /// The number that an argument is for task t; 0 for a name.
    #[inline(always)]
    fn number(&self, t: TaskId, argument: Argument) -> u32
        requires { HasTask t self.now }
        ensures { (name : List ℕ) → result ≡ argument_number (Some (evaluated t self.now.scripts (argument_view name argument))) }
    {
        match argument {
            Argument::Number(n) => n,
            Argument::Variable(variable) => self.content(t, variable),
            Argument::Quoted => 0,
            Argument::Place(place) => place,
        }
    }

    /// The number that is at an argument of a command of task t, counted from 0; 0 if none does.
    #[inline(always)]
    fn number_at(&self, t: TaskId, command: &Command, k: usize) -> u32
        requires { HasTask t self.now }
        ensures { (next : ℕ) → result ≡ argument k (call_of t next (command_view command.now) self.now.scripts) }
    {
        match argument_at(command, k) {
            Some(argument) => self.number(t, *argument),
            None => 0,
        }
    }

    /// What a command of task t of that plain word changes, if the next one is at that place; none for a word that
    /// prints.
    #[inline(always)]
    fn change_of(
        &self,
        t: TaskId,
        word: PlainWord,
        command: &Command,
        next: usize,
    ) -> Option<Change>
        requires known { HasTask t self.now }
        requires plain { command.now.word ≡ Plain word }
        ensures { IfSome result (λ change. (s : State) → does t (call_of t next (command_view command.now) self.now.scripts) s ≡ changes t change s) }
    {
        let target = command.target;
        let first = self.number_at(t, command, 0);
        let second = self.number_at(t, command, 1);
        match word {
            PlainWord::Set => Some(Change {
                target,
                value: first,
                next,
            }),
            PlainWord::Add => Some(Change {
                target,
                value: sum(first, second),
                next,
            }),
            PlainWord::Sub => Some(Change {
                target,
                value: difference(first, second),
                next,
            }),
            PlainWord::And => Some(Change {
                target,
                value: common_bits(first, second),
                next,
            }),
            PlainWord::Or => Some(Change {
                target,
                value: all_bits(first, second),
                next,
            }),
            PlainWord::Jump => Some(Change {
                target: None,
                value: 0,
                next: first as usize,
            }),
            PlainWord::JumpZ => {
                let there = place_at_zero(first, second as usize, next);
                Some(Change {
                    target: None,
                    value: 0,
                    next: there,
                })
            }
            PlainWord::JumpNZ => {
                let here = place_at_zero(first, next, second as usize);
                Some(Change {
                    target: None,
                    value: 0,
                    next: here,
                })
            }
            PlainWord::Print => None,
        }
    }

    /// What a Jump of task t changes, wherever the next command is.
    #[inline(always)]
    fn jump_of(&self, t: TaskId, command: &Command) -> Change
        requires known { HasTask t self.now }
        requires jumps { command.now.word ≡ Plain PlainWord.Jump }
        ensures { (next : ℕ) (s : State) → does t (call_of t next (command_view command.now) self.now.scripts) s ≡ changes t result s }
    {
        Change {
            target: None,
            value: 0,
            next: self.number_at(t, command, 0) as usize,
        }
    }

    /// What task t changes by what it does next, if that is a plain word that prints nothing. A Jump, which ends each
    /// loop, is looked for first.
    #[inline(always)]
    pub(crate) fn next_change(&self, t: TaskId) -> Option<Change>
        requires { HasTask t self.now }
        ensures { IfSome result (λ change. (s : State) → call_step t (next_call t self.now.scripts) s ≡ changes t change s) }
    {
        let program = self.program(t);
        match program.kept() {
            Some(_) => None,
            None => match program.command() {
                None => None,
                Some(command) => match command.word {
                    Word::Plain(PlainWord::Print) => None,
                    Word::Plain(PlainWord::Jump) => Some(self.jump_of(t, command)),
                    Word::Plain(word) => self.change_of(t, word, command, program.next()),
                    _ => None,
                },
            },
        }
    }

    /// Task t changes what its command says, and goes on.
    #[inline(always)]
    pub(crate) fn change(&mut self, t: TaskId, change: Change)
        requires { HasTask t self.old }
        ensures follows { Quietly (changes t change) self.old self.new }
        ensures next { self.new ≡ record self.old { scripts = goes_on t change.next (stored t change.target change.value self.old.scripts) } }
    {
        self.store(t, change.target, change.value);
        self.go_on(t, change.next);
    }

    /// Puts the line of a Print of task t.
    #[inline(never)]
    fn say_print<W: Witness>(&self, t: TaskId, command: &Command, out: &mut W)
        requires known { HasTask t self.now }
        requires prints { command.now.word ≡ Plain PlainWord.Print }
        ensures { (next : ℕ) → W.hearing.hears (W.told out.old) (W.told out.new)
            ((line_seen t (call_of t next (command_view command.now) self.now.scripts) Done self.now) ∷ []) }
    {
        let mut values = [ShortArg::Value(0); 4];
        let count = command.count as usize;
        self.evaluate_all(t, &command.arguments, count, &mut values);
        let by = self.name(t);
        let shown = &values[..count];
        out.hear(&Said::Call {
            by,
            word: Word::Plain(PlainWord::Print),
            arguments: shown,
            quoted: &command.name,
            ends: CallOutcome::Done,
        });
    }

    /// Puts the line of a Print of task t, as `say_print` does. One argument is put in no list of values.
    #[inline(always)]
    fn say_short_print<W: Witness>(&self, t: TaskId, command: &Command, out: &mut W)
        requires known { HasTask t self.now }
        requires prints { command.now.word ≡ Plain PlainWord.Print }
        ensures { (next : ℕ) → W.hearing.hears (W.told out.old) (W.told out.new)
            ((line_seen t (call_of t next (command_view command.now) self.now.scripts) Done self.now) ∷ []) }
    {
        if command.count != 1 {
            self.say_print(t, command, out);
            return;
        }
        match argument_at(command, 0) {
            None => self.say_print(t, command, out),
            Some(argument) => {
                let value = self.evaluate(t, *argument);
                let by = self.name(t);
                out.hear(&Said::Call {
                    by,
                    word: Word::Plain(PlainWord::Print),
                    arguments: &[value],
                    quoted: &command.name,
                    ends: CallOutcome::Done,
                });
            }
        }
    }

    /// Puts the line of what task t does next, if that is a Print and the sink is good. The answer is the place at
    /// which the task is to go on then.
    #[inline(always)]
    fn put_next_print<W: Witness>(&self, t: TaskId, out: &mut W) -> Option<usize>
        requires { HasTask t self.now }
        ensures puts { IfSome result (λ next. PutsPrint W.hearing t next self.now (W.told out.old) (W.told out.new)) }
        ensures nothing { result ≡ None → W.told out.new ≡ W.told out.old }
    {
        let program = self.program(t);
        match program.kept() {
            Some(_) => None,
            None => match program.command() {
                None => None,
                Some(command) => match command.word {
                    Word::Plain(PlainWord::Print) => {
                        if out.is_good() {
                            self.say_short_print(t, command, out);
                            Some(program.next())
                        } else {
                            None
                        }
                    }
                    _ => None,
                },
            },
        }
    }

    /// Task t does what it does next, if that is a plain word that prints nothing. The answer is whether it did.
    #[inline(always)]
    pub(crate) fn silent_word(&mut self, t: TaskId) -> bool
        requires { HasTask t self.old }
        ensures follows { IsTrue result → Quietly (task_step (Some t)) self.old self.new }
        ensures changes { IsTrue result → ChangesScripts self.old self.new }
        ensures same { result ≡ false → self.new ≡ self.old }
    {
        match self.next_change(t) {
            Some(change) => {
                self.change(t, change);
                true
            }
            None => false,
        }
    }

    /// Task t does what it does next, if that is a Print and the sink is good. The answer is whether it did.
    #[inline(always)]
    pub(crate) fn print_word<W: Witness>(&mut self, t: TaskId, out: &mut W) -> bool
        requires { HasTask t self.old }
        ensures follows { IsTrue result → Follows W.hearing (task_step (Some t)) self.old self.new (W.told out.old) (W.told out.new) }
        ensures changes { IsTrue result → ChangesScripts self.old self.new }
        ensures same { result ≡ false → self.new ≡ self.old }
        ensures nothing { result ≡ false → W.told out.new ≡ W.told out.old }
    {
        match self.put_next_print(t, out) {
            Some(next) => {
                self.go_on(t, next);
                true
            }
            None => false,
        }
    }

    /// Task t does what it does next, if that is a plain word, and if the sink is good in case it prints. The answer is
    /// whether it did.
    #[inline(always)]
    pub(crate) fn plain_word<W: Witness>(&mut self, t: TaskId, out: &mut W) -> bool
        requires { HasTask t self.old }
        ensures follows { IsTrue result → Follows W.hearing (task_step (Some t)) self.old self.new (W.told out.old) (W.told out.new) }
        ensures changes { IsTrue result → ChangesScripts self.old self.new }
        ensures same { result ≡ false → self.new ≡ self.old }
        ensures nothing { result ≡ false → W.told out.new ≡ W.told out.old }
    {
        if self.silent_word(t) {
            return true;
        }
        self.print_word(t, out)
    }
}
