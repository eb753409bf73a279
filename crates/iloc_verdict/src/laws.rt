//! Laws of verdicts, as contracts of functions that do nothing.
ghost use Rattle.iloc_verdict.specs.UnitRule.{BadRowsBreakARule};

/// Of each row that breaks the rules of the units a rule is named that it breaks, and of no other.
pub fn bad_rows_break_a_rule()
    ensures { BadRowsBreakARule }
{}
