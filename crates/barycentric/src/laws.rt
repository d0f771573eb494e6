// Theorems about the weights of every triangle: each is a function's contract, and there is nothing to run.
ghost use Rattle.barycentric.specs.Laws.{LeastHasNoneBelow, LeastIsWeight, LeastSkipsNan, LeastInAnyOrder};

/// The least of three weights is one of them, with none below it, in whatever order they come.
pub fn least_of_three_weights()
    ensures none_below { LeastHasNoneBelow }
    ensures is_weight { LeastIsWeight }
    ensures skips_nan { LeastSkipsNan }
    ensures any_order { LeastInAnyOrder }
{}
