//! What the definitions of the sets mean, signal by signal. The functions do nothing: each has a law as its contract.

ghost use Rattle.std.specs.Prelude.{◌≡◌, ℕ, ◌^◌, ◌<◌, ◌≤◌, ◌&&◌, ◌||◌, not};
ghost use Rattle.signals.specs.Signals.{SignalSets, after_post, after_take, has_signal, highest_free, IsHighestFree};

/// If AllocSignal may choose, it gives the free signal of 16 to 31 above which all are allocated, and none only
/// if all of them are.
///
/// Source: autodoc exec.library/AllocSignal; that it is the highest is a project rule.
pub fn the_highest_free_signal_is_given()
    ensures { (allocated : ℕ) → IsHighestFree allocated (highest_free allocated) }
{}

/// After a post, a signal is received if it was before or is in the mask.
///
/// Source: autodoc exec.library/Signal.
pub fn a_post_adds_the_mask()
    ensures { (sets : SignalSets) (mask n : ℕ)
        → has_signal (after_post mask sets).received n ≡ (has_signal sets.received n || has_signal mask n) }
{}

/// After a take, a signal is received if it was before and is not in the mask.
///
/// Source: autodoc exec.library/Wait.
pub fn a_take_removes_the_mask()
    ensures { (sets : SignalSets) (mask n : ℕ) → mask < 2 ^ 32 → n ≤ 31
        → has_signal (after_take mask sets).received n ≡ (has_signal sets.received n && not (has_signal mask n)) }
{}
