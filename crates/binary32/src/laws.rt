// What conversion keeps: each clause is a theorem on the `convert_format` that the contract of `to_f32` names, in either format.
ghost use Rattle.binary32.specs.Laws.{ConvertsToEven, ConvertsToInfinity, ZeroKeepsSign, InfinityStays, NanStays, OwnValueStays, ConvertsNegated, ConvertedFits, ConversionKeepsOrder, WorkedConversions};

/// `convert_format` is roundTiesToEven (IEEE 754-2019, 4.3.1) of every finite number, and keeps all else as convertFormat does (IEEE 754-2019, 5.4.2).
pub fn converts_ties_to_even()
    ensures nearest_or_even { ConvertsToEven }
    ensures overflow { ConvertsToInfinity }
    ensures zero { ZeroKeepsSign }
    ensures infinity { InfinityStays }
    ensures not_a_number { NanStays }
    ensures own { OwnValueStays }
    ensures either_sign { ConvertsNegated }
    ensures of_format { ConvertedFits }
{}

/// A conversion keeps the order of numbers, the infinities among them.
pub fn conversion_keeps_order()
    ensures { ConversionKeepsOrder }
{}

/// What doubles at the ends and the ties of binary32 are converted to.
pub fn worked_conversions()
    ensures { WorkedConversions }
{}
