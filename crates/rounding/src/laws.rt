// What rounding keeps: each clause is a theorem on the `round` that the contracts of this crate name.
ghost use Rattle.rounding.specs.TiesToEven.{RoundsToEven, RoundsToInfinity, RoundsNegated};
ghost use Rattle.rounding.specs.Order.{RoundingKeepsOrder, SumKeepsOrder, ProductKeepsOrder, SquareKeepsOrder, QuotientKeepsOrder, DivisorTurnsOrder};

/// `round` is roundTiesToEven (IEEE 754-2019, 4.3.1), in either format and for every fraction with either sign.
pub fn rounds_ties_to_even()
    ensures nearest_or_even { RoundsToEven }
    ensures overflow { RoundsToInfinity }
    ensures either_sign { RoundsNegated }
{}

/// A rounding keeps the order, and with it each operation that rounds once; a greater divisor turns it round.
pub fn rounding_keeps_order()
    ensures rounding { RoundingKeepsOrder }
    ensures sum { SumKeepsOrder }
    ensures product { ProductKeepsOrder }
    ensures square { SquareKeepsOrder }
    ensures quotient { QuotientKeepsOrder }
    ensures divisor { DivisorTurnsOrder }
{}
