// What a root is to its operand: each clause is a theorem on the `square_root` that the contracts of `sqrt` and `sqrt_by_digits` name.
ghost use Rattle.root.specs.Laws.{RootIsNearest, RootKeepsOrder, IntegerRootIsGreatest};

/// Of a finite number that is not below zero the root is finite, and no double lies nearer to it (IEEE 754-2019, 4.3.1 and
/// 5.4.1); a greater number never has a lower root.
pub fn square_root_nearest()
    ensures nearest { RootIsNearest }
    ensures order { RootKeepsOrder }
{}

/// The integer root, whose halves are rounded, is the greatest whole number with a square not above its operand.
pub fn integer_root_greatest()
    ensures { IntegerRootIsGreatest }
{}
