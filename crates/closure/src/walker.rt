//! What goes over the states of a machine.
ghost use Rattle.std.specs.Prelude.{◌≡◌, ◌++◌, ℕ, List, [], ◌∷◌, true, false, OnOk, IfOk};
ghost use Rattle.script.specs.{File.MachineData, declared.event.Event.Event};
ghost use Rattle.closure.specs.Closed.{EndsAt, KeysTell};

use crate::fault::Fault;
use script::Event;

/// What goes over the states of a machine: it begins anew as often as one likes, goes on by one event after another,
/// and says where it is.
pub trait Walker {
    /// The machine that it goes over.
    ghost machine_of: { Self → MachineData };

    /// That some events come to the state in which it is.
    ghost stands: { Self → List Event → Type 0 };

    /// The key of that state.
    ghost key: { Self → List ℕ };

    /// Goes to the first state, to which no event comes.
    ///
    /// # Errors
    ///
    /// Memory was refused, or no key distinguishes the states of the machine.
    fn begin(&mut self) -> Result<(), Fault>
        ensures same { machine_of self.new ≡ machine_of self.old }
        ensures there { OnOk result (stands self.new []) };

    /// Goes on by an event, and answers whether it ended in an alert; the last line that the event writes is left in
    /// `text`.
    ///
    /// # Errors
    ///
    /// Memory was refused, too many events came, or no key distinguishes the states of the machine.
    fn go(&mut self, one: Event, text: &mut Vec<u8>) -> Result<bool, Fault>
        ensures same { machine_of self.new ≡ machine_of self.old }
        ensures goes { IfOk result (λ ended. ended ≡ false → (list : List Event) → stands self.old list → stands self.new (list ++ one ∷ [])) }
        ensures ends { IfOk result (λ ended. ended ≡ true → (list : List Event) → stands self.old list → EndsAt (machine_of self.old) list one text.new.items) };

    /// Leaves in `text` the key of the state in which it is.
    ///
    /// # Errors
    ///
    /// Memory was refused, or no key distinguishes the state.
    fn tell(&self, text: &mut Vec<u8>) -> Result<(), Fault>
        ensures { OnOk result (text.new.items ≡ key self.now) };

    /// Where walkers of one machine have one key, the same events come there.
    ghost keys_tell: { KeysTell machine_of stands key };
}
