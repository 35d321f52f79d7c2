//! Laws of the printed lines: functions without effect, whose contracts are the laws.
ghost use Rattle.std.specs.Prelude.{◌≡◌, drop};
ghost use Rattle.std.specs.Str.Parse.{digits_value};
ghost use Rattle.exectrace.specs.Trace.{value_text};

/// The digits after the `$` of a printed value write that value to the base 16, so no two values print alike.
pub fn value_reads_back(value: u32)
    ensures { digits_value 16 (drop 1 (value_text value)) ≡ value }
{}
