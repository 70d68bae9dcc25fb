// The worked cases, proved as one list.
#![tactic(auto)]

ghost use Rattle.cases.specs.Worked.{Worked};

// Each case is what the definitions give, which the contracts of the library use.
pub fn worked_cases()
    ensures { Worked }
{}
