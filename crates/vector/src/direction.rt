// Directions that a query may be asked for.
ghost use Rattle.std.specs.Prelude.{◌≡◌};
ghost use Rattle.vector.specs.Direction.{IsAdmissible, direction_of};

use crate::Vector3;
use refusal::Refusal;

// A vector that row 9 lets pass as a direction.
#[derive(Clone, Copy, Debug)]
pub struct Direction {
    pub vector: Vector3,
    pub ghost admissible: { IsAdmissible vector },
}

impl Direction {
    ghost use Rattle.vector.specs.Accepted.{vector_of};

    // Row 9, for a caller that tests it alone. A grid query tests it in its place among its own checks.
    #[tactic(auto, unfolding(crate::specs::Direction::direction_of))]
    pub fn new(vector: Vector3) -> Result<Direction, Refusal>
        ensures { vector_of result ≡ direction_of vector }
    {
        if vector.is_admissible() {
            Ok(Direction { vector })
        } else {
            Err(Refusal::Direction)
        }
    }
}
