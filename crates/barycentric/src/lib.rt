// Barycentric weights of a point in a triangle, and the least of them.
#![tactic(auto)]

ghost use Rattle.std.specs.Prelude.{◌≡◌};
ghost use Rattle.barycentric.specs.LeastWeight.{least_weight};
ghost use Rattle.barycentric.specs.Ericson.{projected_barycentric};

pub mod laws;

use binary64::minimum_number;
use fused::{mul_add, product_at_most};
use vector::{Vector3, Weights};

// The weights of the point of the triangle a, b, c that is closest to p (Christer Ericson, Real-Time Collision Detection, Morgan Kaufmann 2005, pp. 141–142).
// The tests ask for the signs of vc, vb and va; the values are worked out in the face region alone. Inlined, so that the weights do not go through memory.
#[tactic(auto, using(crate::proofs::Scalars::weights_of_scalars), unfolding(crate::specs::Ericson::region_weights))]
#[inline(always)]
pub fn projected_barycentric(p: Vector3, a: Vector3, b: Vector3, c: Vector3) -> Weights
    ensures { result ≡ projected_barycentric p a b c }
{
    let ab = b - a;
    let ac = c - a;
    let ap = p - a;
    let d1 = ab.dot(ap);
    let d2 = ac.dot(ap);
    if (d1 <= 0.0) & (d2 <= 0.0) {
        return Weights::new(1.0, 0.0, 0.0);
    }
    let bp = p - b;
    let d3 = ab.dot(bp);
    let d4 = ac.dot(bp);
    if (d3 >= 0.0) & (d4 <= d3) {
        return Weights::new(0.0, 1.0, 0.0);
    }
    let vc_at_most_zero = product_at_most(d1, d4, d3 * d2);
    if vc_at_most_zero & (d1 >= 0.0) & (d3 <= 0.0) {
        let v = d1 / (d1 - d3);
        return Weights::new(1.0 - v, v, 0.0);
    }
    let cp = p - c;
    let d5 = ab.dot(cp);
    let d6 = ac.dot(cp);
    if (d6 >= 0.0) & (d5 <= d6) {
        return Weights::new(0.0, 0.0, 1.0);
    }
    let vb_at_most_zero = product_at_most(d5, d2, d1 * d6);
    if vb_at_most_zero & (d2 >= 0.0) & (d6 <= 0.0) {
        let w = d2 / (d2 - d6);
        return Weights::new(1.0 - w, 0.0, w);
    }
    let va_at_most_zero = product_at_most(d3, d6, d5 * d4);
    if va_at_most_zero & (d4 - d3 >= 0.0) & (d5 - d6 >= 0.0) {
        let w = (d4 - d3) / ((d4 - d3) + (d5 - d6));
        return Weights::new(0.0, 1.0 - w, w);
    }
    let va = mul_add(d3, d6, -(d5 * d4));
    let vb = mul_add(d5, d2, -(d1 * d6));
    let vc = mul_add(d1, d4, -(d3 * d2));
    let denom = 1.0 / (va + vb + vc);
    let v = vb * denom;
    let w = vc * denom;
    Weights::new(1.0 - v - w, v, w)
}

// The least of three weights, NaN only where all three are.
#[tactic(auto, unfolding(crate::specs::LeastWeight::least_weight))]
pub fn least_weight(t: Weights) -> f64
    ensures { result ≡ least_weight t }
{
    minimum_number(minimum_number(t.u, t.v), t.w)
}
