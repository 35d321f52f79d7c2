//! What holds of every text that is accepted, as laws over the definitions: functions without effect.
ghost use Rattle.std.specs.Prelude.{◌≡◌, ℕ, List, Ok};
ghost use Rattle.script.specs.{Events.AreWithin, File.MachineData, Machines.IsMachine, declared.event.Event.Event};
ghost use Rattle.taskscript.specs.{Events.script_of, File.file_of};

/// The machine of an accepted file has a version of 1 or 2, a quantum of 1 to 255, a pool of 1 to 1,024, regions of at
/// most 1,048,576 bytes in all in version 1 and 4,194,304 in version 2, and at most 32 libraries, whose names differ
/// among themselves, each with a version of 0 to 65535 and a size of 8 to 65536 bytes. It has at most 32 software
/// interrupts, 32 servers and 64 tasks, whose names differ, each from all others. Each of these has at most 1,024
/// commands. A command has as many arguments as its word, of the word's kinds, and at most one of them is a name; its
/// variables are within the limits of 32 private ones and 64 shared ones, and if its word asks for a software
/// interrupt, one of the file is named. Each jump of a task goes to a command of its body or to the end after the last
/// one. A software interrupt has one of the five priorities, and the commands of software interrupts and of servers
/// have only the words that may be there, and shared variables.
pub fn accepted_file_is_machine()
    ensures { (bytes : List ℕ) (m : MachineData) → file_of bytes ≡ Ok m → IsMachine m }
{}

/// The events of an accepted text are at most 100,000. Each asks for at least one turn, and their steps and their ticks
/// sum to at most 1,000,000 each.
pub fn accepted_events_are_within()
    ensures { (text : List ℕ) (events : List Event) → script_of text ≡ Ok events → AreWithin events }
{}
