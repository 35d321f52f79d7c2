//! Laws of the definitions of `specs/Order.antt` and `specs/Places.antt`. Each function does nothing: its contract is
//! the law, and a caller who calls it may use the law from there on. No law speaks of a list space.
ghost use Rattle.execlist.specs.{Order.OrderTakesArrival, Order.OrderLeavesOut, Order.FirstOfOrderIsChosen, Order.ChosenIsEarliestGreatest, Order.OrderReadsMembersKeys, Order.FoundInOrderIsChosen, Order.OrderRekeyed, Places.WalksMeetSequences};

/// An arrival is one more `enqueue`: the order of some items and one more is that one put into their order.
///
/// Source: autodoc exec.library/Enqueue.
pub fn order_takes_arrival<T>()
    ensures { OrderTakesArrival T }
{}

/// Leaving items out and putting in order may be done one before the other.
///
/// Source: autodoc exec.library/Enqueue.
pub fn order_leaves_out<T>()
    ensures { OrderLeavesOut T }
{}

/// The first of the order is the chosen one.
///
/// Source: autodoc exec.library/Enqueue.
pub fn first_of_order_is_chosen<T>()
    ensures { FirstOfOrderIsChosen T }
{}

/// The chosen one is the earliest among those of greatest key.
///
/// Source: autodoc exec.library/Enqueue.
pub fn chosen_is_earliest_greatest<T>()
    ensures { ChosenIsEarliestGreatest T }
{}

/// The order rests on the keys of the items alone.
///
/// Source: autodoc exec.library/Enqueue.
pub fn order_reads_members_keys<T>()
    ensures { OrderReadsMembersKeys T }
{}

/// The first of the order that passes a test is the chosen one of those that pass it.
///
/// Source: autodoc exec.library/Enqueue.
pub fn found_in_order_is_chosen<T>()
    ensures { FoundInOrderIsChosen T }
{}

/// An item that leaves, gets another key and arrives anew is put among the others by its new key.
///
/// Source: autodoc exec.library/Enqueue.
pub fn order_rekeyed()
    ensures { OrderRekeyed }
{}

/// From the head of a header the places that follow are its nodes in their order and then its tail, if they end; and
/// the same back.
///
/// RKM Libraries, Exec Lists and Queues: `ln_Succ`, `ln_Pred`.
pub fn walks_meet_sequences()
    ensures { WalksMeetSequences }
{}
