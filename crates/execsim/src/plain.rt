//! Plain words: they set variables, calculate, jump and print, and ask nothing of Exec.
ghost use Rattle.std.specs.Prelude.{◌≡◌, ◌+◌, ◌-◌, ◌%◌, ◌^◌, bit_and, bit_or, if◌then◌else◌, nat_eq};
ghost use Rattle.execmodel.specs.Plain.{does_set_by, does_add_by, does_sub_by, does_and_by, does_or_by, jumps, does_jump, does_jump_zero, does_jump_not_zero, does_print, does_plain};
ghost use Rattle.execsim.specs.{Agreement.Quietly, Callers.HasTask, Callers.HasCaller, Agreement.Follows, Views.call_view, Views.caller_view};

use crate::call::{Call, Caller};
use crate::kernel::Kernel;
use execlist::space::ListSpace;
use exectrace::Witness;
use script::PlainWord;
use taskq::TaskId;

/// The sum of two words.
pub(crate) fn sum(a: u32, b: u32) -> u32
    ensures { result ≡ (a + b) % 2 ^ 32 }
{
    a.wrapping_add(b)
}

/// The difference of two words.
pub(crate) fn difference(a: u32, b: u32) -> u32
    ensures { result ≡ (a + (2 ^ 32 - b)) % 2 ^ 32 }
{
    a.wrapping_sub(b)
}

/// The bits that both words have.
pub(crate) fn common_bits(a: u32, b: u32) -> u32
    ensures { result ≡ bit_and a b }
{
    a & b
}

/// The bits that either word has.
pub(crate) fn all_bits(a: u32, b: u32) -> u32
    ensures { result ≡ bit_or a b }
{
    a | b
}

/// The first place if the number is 0, and else the second.
pub(crate) fn place_at_zero(n: u32, zero: usize, other: usize) -> usize
    ensures { result ≡ (if nat_eq n 0 then zero else other) }
{
    if n == 0 { zero } else { other }
}

impl<S: ListSpace> Kernel<S> {
    /// Set a: answers a.
    pub(crate) fn set(&mut self, caller: &Caller, call: &Call)
        requires { HasCaller caller.now self.old }
        ensures { Quietly (does_set_by (caller_view caller.now) (call_view call.now)) self.old self.new }
    {
        self.end_silently_by(caller, call, call.number(0));
    }

    /// Add a b: answers the sum.
    pub(crate) fn add_words(&mut self, caller: &Caller, call: &Call)
        requires { HasCaller caller.now self.old }
        ensures { Quietly (does_add_by (caller_view caller.now) (call_view call.now)) self.old self.new }
    {
        self.end_silently_by(caller, call, sum(call.number(0), call.number(1)));
    }

    /// Sub a b: answers the difference.
    pub(crate) fn sub_words(&mut self, caller: &Caller, call: &Call)
        requires { HasCaller caller.now self.old }
        ensures { Quietly (does_sub_by (caller_view caller.now) (call_view call.now)) self.old self.new }
    {
        self.end_silently_by(caller, call, difference(call.number(0), call.number(1)));
    }

    /// And a b: answers the bits that both have.
    pub(crate) fn and_words(&mut self, caller: &Caller, call: &Call)
        requires { HasCaller caller.now self.old }
        ensures { Quietly (does_and_by (caller_view caller.now) (call_view call.now)) self.old self.new }
    {
        self.end_silently_by(caller, call, common_bits(call.number(0), call.number(1)));
    }

    /// Or a b: answers the bits that either has.
    pub(crate) fn or_words(&mut self, caller: &Caller, call: &Call)
        requires { HasCaller caller.now self.old }
        ensures { Quietly (does_or_by (caller_view caller.now) (call_view call.now)) self.old self.new }
    {
        self.end_silently_by(caller, call, all_bits(call.number(0), call.number(1)));
    }

    /// Task t goes on at that place.
    fn jump_to(&mut self, t: TaskId, place: usize)
        requires { HasTask t self.old }
        ensures { Quietly (jumps t place) self.old self.new }
    {
        self.go_on(t, place);
    }

    /// Jump l: goes on at l.
    fn jump(&mut self, t: TaskId, call: &Call)
        requires { HasTask t self.old }
        ensures { Quietly (does_jump t (call_view call.now)) self.old self.new }
    {
        self.jump_to(t, call.number(0) as usize);
    }

    /// JumpZ a l: goes on at l if a is 0.
    fn jump_zero(&mut self, t: TaskId, call: &Call)
        requires { HasTask t self.old }
        ensures { Quietly (does_jump_zero t (call_view call.now)) self.old self.new }
    {
        let place = place_at_zero(call.number(0), call.number(1) as usize, call.next);
        self.jump_to(t, place);
    }

    /// JumpNZ a l: goes on at l if a is not 0.
    fn jump_not_zero(&mut self, t: TaskId, call: &Call)
        requires { HasTask t self.old }
        ensures { Quietly (does_jump_not_zero t (call_view call.now)) self.old self.new }
    {
        let place = place_at_zero(call.number(0), call.next, call.number(1) as usize);
        self.jump_to(t, place);
    }

    /// Print a: its line shows the value.
    #[tactic(auto, unfolding(execmodel::specs::Plain::does_print))]
    fn print<W: Witness>(&mut self, t: TaskId, call: &Call, out: &mut W)
        requires { HasTask t self.old }
        ensures { Follows W.hearing (does_print t (call_view call.now)) self.old self.new (W.told out.old) (W.told out.new) }
    {
        self.end_call(t, call, out);
    }

    /// A call of task t, by its word: a plain one.
    pub(crate) fn does_plain<W: Witness>(
        &mut self,
        word: PlainWord,
        t: TaskId,
        call: &Call,
        out: &mut W,
    )
        requires { HasTask t self.old }
        ensures { Follows W.hearing (does_plain word t (call_view call.now)) self.old self.new (W.told out.old) (W.told out.new) }
    {
        match word {
            PlainWord::Set => self.set(&Caller::Task(t), call),
            PlainWord::Add => self.add_words(&Caller::Task(t), call),
            PlainWord::Sub => self.sub_words(&Caller::Task(t), call),
            PlainWord::And => self.and_words(&Caller::Task(t), call),
            PlainWord::Or => self.or_words(&Caller::Task(t), call),
            PlainWord::Jump => self.jump(t, call),
            PlainWord::JumpZ => self.jump_zero(t, call),
            PlainWord::JumpNZ => self.jump_not_zero(t, call),
            PlainWord::Print => self.print(t, call, out),
        }
    }
}
