//! Laws of the ways and of their tables.
ghost use Rattle.std.specs.Prelude.{◌≡◌, ◌↔◌, ◌+◌, ◌*◌, ◌^◌, ◌++◌, ℕ, List, [], length, map, replicate};
ghost use Rattle.script.specs.declared.event.Event.{Event};
ghost use Rattle.std.specs.List.{range_with_len};
ghost use Rattle.ways.specs.{Rules.IsOneOf, Rules.IsWay, Sorted.AreInOrder, Ways.exactly, Ways.choose, Tables.table_of, Tables.merged, Tables.total, Tables.count_in, Tables.first_in, Tables.showing, Tables.first_showing};

/// How many ways have exactly that many extras.
pub fn number_of_ways()
    ensures { (kinds acts : List Event) (j : ℕ) → length (exactly kinds j acts) ≡ choose (length acts + j) j * length kinds ^ j }
{}

/// No way is lost and none is made.
pub fn each_way_counts_once()
    ensures { (seen : List Event → List ℕ) (ways : List (List Event)) → total (table_of seen [] ways) ≡ length ways }
{}

/// The table of two parts, one after the other, is their two tables merged.
pub fn sum_of_parts()
    ensures { (seen : List Event → List ℕ) (xs ys : List (List Event)) → table_of seen [] (xs ++ ys) ≡ merged (table_of seen [] xs) (table_of seen [] ys) }
{}

/// A text's count is the number of ways that show it, and its way is the first of them.
pub fn exact()
    ensures count { (seen : List Event → List ℕ) (ways : List (List Event)) (text : List ℕ) → count_in (table_of seen [] ways) text ≡ showing seen text ways }
    ensures first { (seen : List Event → List ℕ) (ways : List (List Event)) (text : List ℕ) → first_in (table_of seen [] ways) text ≡ first_showing seen text ways }
{}

/// Which lists are ways, by three rules: no action and no extra make the empty way; an extra of one of the kinds may
/// come first; and so may the first action. Each list that they make is among the ways with that many extras, and no
/// other is.
#[tactic(auto, using(crate::proofs::Rules::listed, crate::proofs::Rules::made))]
pub fn three_rules_make_the_ways()
    ensures { (kinds acts way : List Event) (j : ℕ) → IsOneOf (exactly kinds j acts) way ↔ IsWay kinds j acts way }
{}

/// The order of the ways: number the kinds from 0, and give each action the number of kinds. Then the ways with that
/// many extras are in the order of a dictionary, each before all after it: at the first place at which two of them
/// differ an extra is before an action, and an extra of an earlier kind before one of a later kind. And the ways among
/// any events are those, with the events in the place of their numbers.
#[tactic(auto, using(crate::proofs::Sorting::ways_in_order, crate::proofs::Sorting::map_ways))]
pub fn ways_are_in_order()
    ensures sorted { (many j actions : ℕ) → AreInOrder (exactly (range_with_len 0 many) j (replicate actions many)) }
    ensures named { (name : ℕ → Event) (kinds acts : List ℕ) (j : ℕ) → map (map name) (exactly kinds j acts) ≡ exactly (map name kinds) j (map name acts) }
{}
