// What holds of the crate's definitions, for every operand: each function's clauses are proved, and its body does nothing.
ghost use Rattle.binary64.specs.Laws.{ToldCaseHolds, NoOtherCaseHolds, HeldIsAnEnd, KeptIsTheValue, CutIsTowardZero, MinimumOfZeros, MinimumSkipsNan, MinimumCommutes, MinimumAssociates, MinimumHasLesserRank, FloorNotAbove, FloorGreatest, CeilNotBelow, CeilLeast, IntegralExact, TotalOrderReflexive, TotalOrderTotal, TotalOrderAntisymmetric, TotalOrderTransitive, TotalOrderByRank, RankBelow, RankInjective, RankOnto, SpecialDataInOrder};

/// What a conversion to an i64 tells of a value is so, and what the number then is (IEEE 754-2019, 5.8).
pub fn cases_of_a_conversion()
    ensures told { ToldCaseHolds }
    ensures no_other { NoOtherCaseHolds }
    ensures held { HeldIsAnEnd }
    ensures kept { KeptIsTheValue }
    ensures cut { CutIsTowardZero }
{}

/// The minimum of two doubles (IEEE 754-2019, 9.6) in whatever order and grouping.
pub fn order_of_minima()
    ensures zeros { MinimumOfZeros }
    ensures skips_nan { MinimumSkipsNan }
    ensures commutes { MinimumCommutes }
    ensures associates { MinimumAssociates }
    ensures rank { MinimumHasLesserRank }
{}

/// Floor and ceiling are the nearest whole numbers in their directions (IEEE 754-2019, 5.9).
pub fn nearest_whole_numbers()
    ensures floor_not_above { FloorNotAbove }
    ensures floor_greatest { FloorGreatest }
    ensures ceil_not_below { CeilNotBelow }
    ensures ceil_least { CeilLeast }
    ensures exact { IntegralExact }
{}

/// The order of all bit patterns is a total order, and each pattern has a place in it (IEEE 754-2019, 5.10).
pub fn order_of_patterns()
    ensures reflexive { TotalOrderReflexive }
    ensures total { TotalOrderTotal }
    ensures antisymmetric { TotalOrderAntisymmetric }
    ensures transitive { TotalOrderTransitive }
    ensures by_rank { TotalOrderByRank }
    ensures rank_below { RankBelow }
    ensures rank_injective { RankInjective }
    ensures rank_onto { RankOnto }
    ensures special { SpecialDataInOrder }
{}
