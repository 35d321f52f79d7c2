//! What variables hold while the commands of an entry are gone through once more, so that the words that print nothing
//! can be shown with their values.

use execlog::Before;
use script::{Argument, Command, PlainWord, Variable};

/// What the variables hold.
#[derive(Clone, Copy)]
pub struct Replay {
    values: Before,
}

impl Replay {
    /// As they were before the entry.
    ///
    /// Source: project rule.
    pub fn new(before: &Before) -> Replay {
        Replay { values: *before }
    }

    /// What a variable holds.
    ///
    /// Source: project rule.
    pub fn value_of(&self, variable: Variable) -> u32 {
        match variable {
            Variable::Private(n) => self.values.private.get(n as usize).copied().unwrap_or(0),
            Variable::Shared(n) => self.values.shared.get(n as usize).copied().unwrap_or(0),
        }
    }

    /// Gives a value to a variable.
    ///
    /// Source: project rule.
    pub fn set(&mut self, variable: Variable, value: u32) {
        match variable {
            Variable::Private(n) => {
                if (n as usize) < self.values.private.len() {
                    self.values.private[n as usize] = value;
                }
            }
            Variable::Shared(n) => {
                if (n as usize) < self.values.shared.len() {
                    self.values.shared[n as usize] = value;
                }
            }
        }
    }

    /// The value of an argument; 0 for one that has none.
    ///
    /// Source: project rule.
    pub fn argument(&self, command: &Command, number: usize) -> u32 {
        match command.arguments.get(number) {
            Some(Argument::Number(value)) => *value,
            Some(Argument::Variable(variable)) => self.value_of(*variable),
            _ => 0,
        }
    }

    /// What a word that calculates answers.
    ///
    /// Source: project rule.
    pub fn result(&self, word: PlainWord, command: &Command) -> u32 {
        let one = self.argument(command, 0);
        let other = self.argument(command, 1);
        match word {
            PlainWord::Add => one.wrapping_add(other),
            PlainWord::Sub => one.wrapping_sub(other),
            PlainWord::And => one & other,
            PlainWord::Or => one | other,
            _ => one,
        }
    }
}
