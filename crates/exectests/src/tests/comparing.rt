//! How a test compares.
use std::fmt::{Debug, Display};
use std::process::Abort;

/// Asserts that what a case comes to at a place is what is wanted: at a step, by its number, or at a part, by its name.
pub(super) fn same<T: PartialEq + Debug + Copy, P: Display + Copy>(
    rt: &impl Abort,
    case: &str,
    place: P,
    answer: T,
    wanted: T,
) {
    assert_eq!(rt; answer, wanted, "{case}, at {place}");
}
