// The master faces of the icosahedron: plane geometry for projection and classification, and the Gram numbers of the edges.
#![tactic(auto)]

ghost use Rattle.std.specs.Prelude.{◌≡◌};
ghost use Rattle.master_face.specs.MasterFace.{gram_of, edge_planes_of, master_face, radial_projection, face_weights, outside_of};

pub mod faces;

use vector::{Vector3, Weights};

// What belongs to the three corners of a face, or to its three sides, in their order.
// Named fields and no array: a master face is made of nested structs.
#[derive(Clone, Copy, Debug)]
pub struct Three<T> {
    pub first: T,
    pub second: T,
    pub third: T,
}

// The edges' dots with each other, and 1 / (d00 d11 - d01 d01).
#[derive(Clone, Copy)]
pub struct Gram {
    pub d00: f64,
    pub d01: f64,
    pub d11: f64,
    pub inv_denom: f64,
}

#[derive(Clone, Copy)]
pub struct MasterFace {
    pub corners: Three<Vector3>,
    pub normal: Vector3,
    pub plane_offset: f64,
    // The normals of the side planes through the origin and two corners.
    pub edge_planes: Three<Vector3>,
    pub v0: Vector3,
    pub v1: Vector3,
    pub gram: Gram,
}

impl Gram {
    #[tactic(auto, unfolding(crate::specs::MasterFace::gram_of))]
    pub fn new(v0: Vector3, v1: Vector3) -> Self
        ensures { result ≡ gram_of v0 v1 }
    {
        let d00 = v0.dot(v0);
        let d01 = v0.dot(v1);
        let d11 = v1.dot(v1);
        Self {
            d00,
            d01,
            d11,
            inv_denom: 1.0 / (d00 * d11 - d01 * d01),
        }
    }
}

impl Three<Vector3> {
    // The normals of the side planes through the origin and two corners.
    #[tactic(auto, unfolding(crate::specs::MasterFace::edge_planes_of))]
    pub fn edge_planes(self) -> Self
        ensures { result ≡ edge_planes_of self.first self.second self.third }
    {
        Self {
            first: self.first.cross(self.second),
            second: self.second.cross(self.third),
            third: self.third.cross(self.first),
        }
    }
}

impl MasterFace {
    #[tactic(auto, unfolding(crate::specs::MasterFace::master_face))]
    pub fn new(p1: Vector3, p2: Vector3, p3: Vector3) -> Self
        ensures { result ≡ master_face p1 p2 p3 }
    {
        let corners = Three {
            first: p1,
            second: p2,
            third: p3,
        };
        let v0 = p2 - p1;
        let v1 = p3 - p1;
        let normal = v0.cross(v1).normalize();
        Self {
            corners,
            normal,
            plane_offset: normal.dot(p1),
            edge_planes: corners.edge_planes(),
            v0,
            v1,
            gram: Gram::new(v0, v1),
        }
    }

    // The point's radial projection onto the face's plane.
    #[tactic(auto, unfolding(crate::specs::MasterFace::radial_projection))]
    pub fn projection(self, p: Vector3) -> Vector3
        ensures { result ≡ radial_projection self p }
    {
        p * (self.plane_offset / p.dot(self.normal))
    }

    // The weights of the corners at a projected point.
    #[tactic(auto, unfolding(crate::specs::MasterFace::face_weights))]
    pub fn barycentric(self, pp: Vector3) -> Weights
        ensures { result ≡ face_weights self pp }
    {
        let gram = self.gram;
        let v2 = pp - self.corners.first;
        let d20 = v2.dot(self.v0);
        let d21 = v2.dot(self.v1);
        let beta = (gram.d11 * d20 - gram.d01 * d21) * gram.inv_denom;
        let gamma = (gram.d00 * d21 - gram.d01 * d20) * gram.inv_denom;
        Weights::new(1.0 - beta - gamma, beta, gamma)
    }

    // Beyond which side planes the point lies.
    #[tactic(auto, unfolding(crate::specs::MasterFace::outside_of))]
    pub fn outside(self, p: Vector3) -> Three<bool>
        ensures { result ≡ outside_of self p }
    {
        let planes = self.edge_planes;
        Three {
            first: p.dot(planes.first) < -1e-12,
            second: p.dot(planes.second) < -1e-12,
            third: p.dot(planes.third) < -1e-12,
        }
    }
}
