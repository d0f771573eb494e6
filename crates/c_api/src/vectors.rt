// Vectors, directions, and the weights of a point in a triangle.
ghost use Rattle.std.specs.Prelude.{◌≡◌};
ghost use Rattle.vector.specs.Vector.{dot_product, cross_product, vector_difference, vector_sum, vector_multiple, vector_quotient, squared_length, length_of, normalized};
ghost use Rattle.vector.specs.Direction.{direction_of};
ghost use Rattle.barycentric.specs.LeastWeight.{least_weight};
ghost use Rattle.barycentric.specs.Ericson.{projected_barycentric};
ghost use Rattle.c_api.specs.Code.{refusal_code};

use crate::refusal_code;
use vector::{Direction, Vector3, Weights};

pub fn koshirga_dot(a: Vector3, b: Vector3) -> f64
    ensures { result ≡ dot_product a b }
{
    a.dot(b)
}

pub fn koshirga_cross(a: Vector3, b: Vector3) -> Vector3
    ensures { result ≡ cross_product a b }
{
    a.cross(b)
}

pub fn koshirga_minus(a: Vector3, b: Vector3) -> Vector3
    ensures { result ≡ vector_difference a b }
{
    a - b
}

pub fn koshirga_plus(a: Vector3, b: Vector3) -> Vector3
    ensures { result ≡ vector_sum a b }
{
    a + b
}

pub fn koshirga_scale(v: Vector3, factor: f64) -> Vector3
    ensures { result ≡ vector_multiple v factor }
{
    v * factor
}

pub fn koshirga_divide(v: Vector3, divisor: f64) -> Vector3
    ensures { result ≡ vector_quotient v divisor }
{
    v / divisor
}

pub fn koshirga_norm_squared(v: Vector3) -> f64
    ensures { result ≡ squared_length v }
{
    v.norm_squared()
}

pub fn koshirga_norm(v: Vector3) -> f64
    ensures { result ≡ length_of v }
{
    v.norm()
}

pub fn koshirga_normalize(v: Vector3) -> Vector3
    ensures { result ≡ normalized v }
{
    v.normalize()
}

// 0 where row 9 lets the direction pass, and otherwise 9.
pub fn koshirga_direction(v: Vector3) -> u32
    ensures { result ≡ refusal_code (direction_of v) }
{
    refusal_code(Direction::new(v))
}

pub fn koshirga_projected_barycentric(p: Vector3, a: Vector3, b: Vector3, c: Vector3) -> Weights
    ensures { result ≡ projected_barycentric p a b c }
{
    barycentric::projected_barycentric(p, a, b, c)
}

pub fn koshirga_least_weight(weights: Weights) -> f64
    ensures { result ≡ least_weight weights }
{
    barycentric::least_weight(weights)
}
