//! The parts of a state as numbers.
ghost use Rattle.std.specs.Prelude.{◌≡◌, ◌++◌, IfOk, OnOk, map};
ghost use Rattle.exectrace.specs.Short.{short_argument};
ghost use Rattle.statekeys.specs.Numbers.{argument_numbers, bool_number, int_number, list_numbers, mask_number, option_number, state_number};

use closure::Fault;
use exectrace::{Name, ShortArg};
use taskq::{TaskState, Why};

/// The number of a truth value.
pub fn bool_code(is_so: bool) -> u64
    ensures { result ≡ bool_number is_so }
{
    if is_so { 1 } else { 0 }
}

/// The number of a signed number.
pub fn int_code(n: i8) -> u64
    ensures { result ≡ int_number n }
{
    let twice = u64::from(n.unsigned_abs()) * 2;
    if n < 0 { twice - 1 } else { twice }
}

/// The number of a number, or of none.
pub fn option_code(n: Option<usize>) -> Result<u64, Fault>
    ensures { IfOk result (λ code. code ≡ option_number n) }
{
    match n {
        None => Ok(0),
        Some(n) => match (n as u64).checked_add(1) {
            None => Err(Fault::NoKey),
            Some(next) => Ok(next),
        },
    }
}

/// The number of the state of a task.
pub fn state_code(state: TaskState) -> u64
    ensures { result ≡ state_number state }
{
    match state {
        TaskState::Absent => 0,
        TaskState::Ready => 1,
        TaskState::Running => 2,
        TaskState::Removed => 3,
        TaskState::Waiting(Why::Sem) => 4,
        TaskState::Waiting(Why::Signals(_)) => 5,
    }
}

/// The signals that a task of a state waits for.
pub fn mask_code(state: TaskState) -> u64
    ensures { result ≡ mask_number state }
{
    match state {
        TaskState::Waiting(Why::Signals(mask)) => u64::from(mask),
        _ => 0,
    }
}

/// Adds the items of a list.
pub fn push_words(list: &[u32], numbers: &mut Vec<u64>) -> Result<(), Fault>
    ensures { OnOk result (numbers.new.items ≡ numbers.old.items ++ list_numbers list.now) }
{
    for item in list {
        numbers.push(u64::from(*item) + 1)?;
    }
    numbers.push(0)?;
    Ok(())
}

/// Adds the items of a list of places.
pub fn push_places(list: &[usize], numbers: &mut Vec<u64>) -> Result<(), Fault>
    ensures { OnOk result (numbers.new.items ≡ numbers.old.items ++ list_numbers list.now) }
{
    for item in list {
        numbers.push(option_code(Some(*item))?)?;
    }
    numbers.push(0)?;
    Ok(())
}

/// Adds the arguments of a call, none of which is a name.
pub fn push_arguments(
    quoted: &Name,
    arguments: &[ShortArg],
    numbers: &mut Vec<u64>,
) -> Result<(), Fault>
    ensures { OnOk result (numbers.new.items ≡ numbers.old.items ++ argument_numbers (map (short_argument quoted.now.bytes) arguments.now)) }
{
    for argument in arguments {
        match argument {
            ShortArg::Quoted => return Err(Fault::NoKey),
            ShortArg::Value(n) => numbers.extend_from_slice(&[1, u64::from(*n)])?,
        }
    }
    numbers.push(0)?;
    let _ = quoted;
    Ok(())
}
