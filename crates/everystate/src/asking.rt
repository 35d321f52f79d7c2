//! Whether the words of the process ask for all states.
use std::env::{Env, FillError};

/// The most words that are looked at.
const MOST_WORDS: usize = 4_096;

/// Room for a word, and one byte more than the one that is looked for has.
const WORD_ROOM: usize = 8;

/// Whether one of the words of the process's command line is `--all`. Words after `--` are paths.
///
/// Source: project rule.
pub fn asks_for_all<R: Env>(rt: &R) -> bool {
    for number in 1..MOST_WORDS {
        let mut word = [0u8; WORD_ROOM];
        match rt.arg(number, &mut word) {
            Ok(length) => {
                if &word[..length] == b"--all".as_slice() {
                    return true;
                }
                if &word[..length] == b"--".as_slice() {
                    return false;
                }
            }
            Err(FillError::NotPresent) => return false,
            Err(_) => {}
        }
    }
    false
}
