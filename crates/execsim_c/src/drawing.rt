//! The run as a picture, and in the Trace Event Format.
ghost use Rattle.std.specs.Prelude.{◌≤◌};

use crate::logging::{hand_over_part, part, part_of};
use logger::View;
use std::alloc::Global;

/// Puts the picture of the run of two texts from what the machine shows after step `from` to step `to` at the front of
/// `out`, and its length in bytes in `length`: the SVG document of `execlog --svg`. `u64::MAX` for `to` is the last
/// step.
///
/// As `execsim_log`; 7 also if there are more steps than a picture shows.
///
/// Source: project rule.
#[unsafe(no_mangle)]
pub extern "C" fn execsim_picture(
    alloc: Global,
    machine: &[u8],
    events: &[u8],
    from: u64,
    to: u64,
    out: &mut [u8],
    length: &mut u64,
) -> u32
    ensures { result ≤ 7 }
{
    let found = part_of(alloc, machine, events, &part(View::Svg, from, to));
    hand_over_part(found, out, length)
}

/// Puts the run of two texts in the Trace Event Format at the front of `out`, and its length in bytes in `length`: the
/// JSON document of `execlog --chrome`, of the same steps as `execsim_picture`.
///
/// As `execsim_log`.
///
/// Source: project rule.
#[unsafe(no_mangle)]
pub extern "C" fn execsim_chrome(
    alloc: Global,
    machine: &[u8],
    events: &[u8],
    from: u64,
    to: u64,
    out: &mut [u8],
    length: &mut u64,
) -> u32
    ensures { result ≤ 7 }
{
    let found = part_of(alloc, machine, events, &part(View::Chrome, from, to));
    hand_over_part(found, out, length)
}
