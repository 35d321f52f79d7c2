//! Laws of the sums of reports.
ghost use Rattle.std.specs.Prelude.{◌≡◌, ◌≤◌, [], ℕ, List, map};
ghost use Rattle.script.specs.declared.event.Event.{Event};
ghost use Rattle.ways.specs.Tables.{table_of};
ghost use Rattle.wayreport.specs.{Parts.part_numbered, Reports.told, Sums.outcomes_in, Sums.summed, declared.report.Report.Report};

/// If each report has the outcomes of its part of some ways, the sum of the reports of all parts has the outcomes of
/// all ways.
pub fn sum_of_all_parts()
    ensures { (seen : List Event → List ℕ) (ways : List (List Event)) (reports : List Report) (parts : ℕ) → 1 ≤ parts
        → ((number : ℕ) → 1 ≤ number → number ≤ parts → outcomes_in reports number ≡ map told (table_of seen [] (part_numbered number parts ways)))
        → summed reports parts ≡ map told (table_of seen [] ways) }
{}
