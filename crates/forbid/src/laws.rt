//! What the definitions of the nesting mean for each other. The functions do nothing: each has a law as its contract.

ghost use Rattle.std.specs.Prelude.{◌≡◌, Some, IfSome, IsFalse};
ghost use Rattle.forbid.specs.Nesting.{Nesting, IsInRange, after_forbid, after_permit, after_disable, after_enable, may_switch, may_interrupt};

/// Permit takes back a Forbid, and Enable takes back a Disable.
///
/// Source: autodocs exec.library/Permit and exec.library/Enable.
pub fn each_call_has_its_counterpart()
    ensures permit { (nesting : Nesting) → IsInRange nesting
        → IfSome (after_forbid nesting) (λ inside. after_permit inside ≡ Some nesting) }
    ensures enable { (nesting : Nesting) → IsInRange nesting
        → IfSome (after_disable nesting) (λ inside. after_enable inside ≡ Some nesting) }
{}

/// After Forbid no other task may be switched to, and interrupts are allowed as before.
///
/// Source: autodoc exec.library/Forbid.
pub fn a_forbid_stops_switching()
    ensures switching { (nesting : Nesting) → IsInRange nesting
        → IfSome (after_forbid nesting) (λ inside. IsFalse (may_switch inside)) }
    ensures interrupts { (nesting : Nesting)
        → IfSome (after_forbid nesting) (λ inside. may_interrupt inside ≡ may_interrupt nesting) }
{}

/// After Disable no other task may be switched to, and no interrupt is allowed.
///
/// Source: autodoc exec.library/Disable.
pub fn a_disable_stops_switching_and_interrupts()
    ensures switching { (nesting : Nesting) → IsInRange nesting
        → IfSome (after_disable nesting) (λ inside. IsFalse (may_switch inside)) }
    ensures interrupts { (nesting : Nesting) → IsInRange nesting
        → IfSome (after_disable nesting) (λ inside. IsFalse (may_interrupt inside)) }
{}
