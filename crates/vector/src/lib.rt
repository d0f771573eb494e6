// Vectors of three doubles: each operation is a stated sequence of single roundings (IEEE 754-2019, 4.3.1).
#![tactic(auto)]

ghost use Rattle.std.specs.Prelude.{◌≡◌, ⊤};
ghost use Rattle.vector.specs.Vector.{vector, dot_product, cross_product, vector_difference, vector_sum, vector_multiple, vector_quotient, squared_length, length_of, normalized};
ghost use Rattle.vector.specs.Triangle.{weights};
ghost use Rattle.vector.specs.Direction.{admissible};

mod direction;
pub mod laws;

pub use direction::Direction;
use root::sqrt;
use std::ops::{Add, Div, Mul, Sub};

#[repr(C)]
#[derive(Clone, Copy, Debug)]
pub struct Vector3 {
    pub x: f64,
    pub y: f64,
    pub z: f64,
}

impl Vector3 {
    // +0 in each component.
    pub const ZERO: Vector3 = Vector3 {
        x: 0.0,
        y: 0.0,
        z: 0.0,
    };

    pub fn new(x: f64, y: f64, z: f64) -> Self
        ensures { result ≡ vector x y z }
    {
        Self { x, y, z }
    }

    // x·x' + y·y' + z·z', summed from the left.
    pub fn dot(self, other: Vector3) -> f64
        ensures { result ≡ dot_product self other }
    {
        self.x * other.x + self.y * other.y + self.z * other.z
    }

    pub fn cross(self, other: Vector3) -> Self
        ensures { result ≡ cross_product self other }
    {
        Self {
            x: self.y * other.z - self.z * other.y,
            y: self.z * other.x - self.x * other.z,
            z: self.x * other.y - self.y * other.x,
        }
    }

    pub fn norm_squared(self) -> f64
        ensures { result ≡ squared_length self }
    {
        self.dot(self)
    }

    pub fn norm(self) -> f64
        ensures { result ≡ length_of self }
    {
        sqrt(self.norm_squared())
    }

    pub fn normalize(self) -> Self
        ensures { result ≡ normalized self }
    {
        self / self.norm()
    }

    // Whether rows 5 and 9 let the vector pass. A component that is no finite number makes the squared length NaN or infinite, so the
    // two comparisons decide alone.
    pub fn is_admissible(self) -> bool
        ensures { result ≡ admissible self }
    {
        let squared = self.norm_squared();
        (squared >= 9.094947017729282379150390625e-13) & (squared <= 1099511627776.0)
    }
}

// The rest goes component by component, one rounding each.
impl Add for Vector3 {
    type Output = Vector3;

    ghost can_add = { λ a b. ⊤ };

    ghost add_gives = { λ a b sum. sum ≡ vector_sum a b };

    fn add(self, other: Vector3) -> Vector3 {
        Vector3 {
            x: self.x + other.x,
            y: self.y + other.y,
            z: self.z + other.z,
        }
    }
}

impl Sub for Vector3 {
    type Output = Vector3;

    ghost can_sub = { λ a b. ⊤ };

    ghost sub_gives = { λ a b difference. difference ≡ vector_difference a b };

    fn sub(self, other: Vector3) -> Vector3 {
        Vector3 {
            x: self.x - other.x,
            y: self.y - other.y,
            z: self.z - other.z,
        }
    }
}

impl Mul<f64> for Vector3 {
    type Output = Vector3;

    ghost can_mul = { λ a factor. ⊤ };

    ghost mul_gives = { λ a factor multiple. multiple ≡ vector_multiple a factor };

    fn mul(self, factor: f64) -> Vector3 {
        Vector3 {
            x: self.x * factor,
            y: self.y * factor,
            z: self.z * factor,
        }
    }
}

impl Div<f64> for Vector3 {
    type Output = Vector3;

    ghost can_div = { λ a divisor. ⊤ };

    ghost div_gives = { λ a divisor quotient. quotient ≡ vector_quotient a divisor };

    fn div(self, divisor: f64) -> Vector3 {
        Vector3 {
            x: self.x / divisor,
            y: self.y / divisor,
            z: self.z / divisor,
        }
    }
}

// The ids of a triangle's corners, as both locators answer them. Named fields and no array: an answer's corners are its first, second and third.
#[derive(Clone, Copy, Debug, PartialEq, Eq)]
pub struct Triple {
    pub first: u16,
    pub second: u16,
    pub third: u16,
}

// The weights of a triangle's corners, in their order.
#[repr(C)]
#[derive(Clone, Copy, Debug)]
pub struct Weights {
    pub u: f64,
    pub v: f64,
    pub w: f64,
}

impl Weights {
    pub fn new(u: f64, v: f64, w: f64) -> Self
        ensures { result ≡ weights u v w }
    {
        Self { u, v, w }
    }
}
