// How a fused multiply-add follows its operands: a theorem on the `fused_multiply_add` that the contracts of this crate name.
ghost use Rattle.fused.specs.FusedOrder.{FusedKeepsOrder};

/// Of finite operands, a greater factor beside one that is not below zero never gives a lower result, be the results
/// normal, subnormal, zeros or infinities.
pub fn fused_keeps_order()
    ensures { FusedKeepsOrder }
{}
