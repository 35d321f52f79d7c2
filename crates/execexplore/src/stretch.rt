//! Which part of the ways is searched.
ghost use Rattle.std.specs.Prelude.{◌≡◌, ◌≤◌, ◌*◌, ◌/◌, ◌-◌, IfSome};

use ways::{Window, part_window};

/// How many parts a search may have.
pub const MOST_PARTS: u32 = 1_000_000;

/// Which part of the ways is searched.
#[derive(Clone, Copy)]
pub struct Stretch {
    /// The number of the part, from 1.
    pub number: u32,
    /// The number of parts, at most `MOST_PARTS`.
    pub of: u32,
    ghost first: { 1 ≤ number },
    ghost within: { number ≤ of },
    ghost few: { of ≤ 1000000 },
}

/// The part that a word gives, as `2/4`.
pub fn stretch_in(word: &str) -> Option<Stretch> {
    let (number, of) = word.split_once("/")?;
    let number = small_number(number)?;
    let of = small_number(of)?;
    if number <= of {
        Some(Stretch { number, of })
    } else {
        None
    }
}

/// A number from 1 to the number of parts that a search may have.
fn small_number(word: &str) -> Option<u32>
    ensures some { IfSome result (λ number. 1 ≤ number) }
    ensures few { IfSome result (λ number. number ≤ 1000000) }
{
    let Ok(number) = word.parse::<u32>() else {
        return None;
    };
    if number >= 1 && number <= MOST_PARTS {
        Some(number)
    } else {
        None
    }
}

/// The ways of a part: contiguous, by number, the parts equal in size to within one.
pub fn stretch_window(ways: u64, stretch: Stretch) -> Window
    requires { ways ≤ 1099511627776 }
    ensures skip { result.skip ≡ ways * (stretch.number - 1) / stretch.of }
    ensures left { result.left ≡ ways * stretch.number / stretch.of - ways * (stretch.number - 1) / stretch.of }
{
    part_window(ways, stretch.number as u64, stretch.of as u64)
}
