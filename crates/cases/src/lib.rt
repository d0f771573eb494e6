// Twelve worked cases as one table, with one theorem that every row holds of the crates' definitions.
#![tactic(auto)]

ghost use Rattle.cases.specs.Cases.{AllHold};
ghost use Rattle.cases.specs.Table.{table};

/// The definitions that the contracts of the crates below name answer each of the twelve cases as the table expects.
pub fn twelve_cases()
    ensures { AllHold table }
{}
