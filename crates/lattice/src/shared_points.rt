// Points that faces share: two tables of shared corners and edges, and the first appearance of a point's vertex.
ghost use Rattle.std.specs.Prelude.{◌≡◌, ◌+◌, ◌*◌, ◌≤◌};
ghost use Rattle.icosahedron.specs.Corners.{corner_number};
ghost use Rattle.lattice.specs.Shared.{first_corner, other_edge};
ghost use Rattle.lattice.specs.Naming.{IsPoint, point_of, corner_naming, edge_naming, naming};

use crate::face_points::FacePoint;
use icosahedron::Corner::{A, B, C};
use icosahedron::{Corner, Face};

// For each corner of each face, the face that has it first, and its place there.
const FIRST_CORNERS: [[(u8, Corner); 3]; 20] = [
    [(0, A), (0, B), (0, C)],
    [(0, A), (0, C), (1, C)],
    [(0, A), (1, C), (2, C)],
    [(0, A), (2, C), (3, C)],
    [(0, A), (3, C), (0, B)],
    [(5, A), (0, C), (0, B)],
    [(0, C), (5, A), (6, C)],
    [(6, C), (1, C), (0, C)],
    [(1, C), (6, C), (8, C)],
    [(8, C), (2, C), (1, C)],
    [(2, C), (8, C), (10, C)],
    [(10, C), (3, C), (2, C)],
    [(3, C), (10, C), (12, C)],
    [(12, C), (0, B), (3, C)],
    [(0, B), (12, C), (5, A)],
    [(15, A), (6, C), (5, A)],
    [(15, A), (8, C), (6, C)],
    [(15, A), (10, C), (8, C)],
    [(15, A), (12, C), (10, C)],
    [(15, A), (5, A), (12, C)],
];

// For each edge of each face, by the opposite corner, the other face that has it, and the opposite corner there.
const OTHER_EDGES: [[(u8, Corner); 3]; 20] = [
    [(5, A), (1, C), (4, B)],
    [(7, A), (2, C), (0, B)],
    [(9, A), (3, C), (1, B)],
    [(11, A), (4, C), (2, B)],
    [(13, A), (0, C), (3, B)],
    [(0, A), (14, B), (6, C)],
    [(15, A), (7, B), (5, C)],
    [(1, A), (6, B), (8, C)],
    [(16, A), (9, B), (7, C)],
    [(2, A), (8, B), (10, C)],
    [(17, A), (11, B), (9, C)],
    [(3, A), (10, B), (12, C)],
    [(18, A), (13, B), (11, C)],
    [(4, A), (12, B), (14, C)],
    [(19, A), (5, B), (13, C)],
    [(6, A), (19, C), (16, B)],
    [(8, A), (15, C), (17, B)],
    [(10, A), (16, C), (18, B)],
    [(12, A), (17, C), (19, B)],
    [(14, A), (18, C), (15, B)],
];

// This and `other_edge` are two functions, since each promises what its own table holds.
fn first_corner(face: Face, corner: Corner) -> (Face, Corner)
    ensures { result.0.index * 3 + corner_number result.1 ≡ first_corner face.index (corner_number corner) }
{
    let (first, place) = FIRST_CORNERS[face.index][corner.place()];
    (Face::new(first as usize), place)
}

fn other_edge(face: Face, opposite: Corner) -> (Face, Corner)
    ensures { result.0.index * 3 + corner_number result.1 ≡ other_edge face.index (corner_number opposite) }
{
    let (other, place) = OTHER_EDGES[face.index][opposite.place()];
    (Face::new(other as usize), place)
}

impl FacePoint {
    // A corner of the point's face, on the face that has it first.
    fn corner_naming(self, corner: Corner) -> FacePoint
        ensures { IsPoint result self.frequency (corner_naming self.frequency.n self.face.index (corner_number corner)) }
    {
        let (first, place) = first_corner(self.face, corner);
        FacePoint::on_corner(self.frequency, first, place)
    }

    // A point of an edge of the point's face, on the earlier of the two faces that have it.
    fn edge_naming(self, opposite: Corner, weight: usize) -> FacePoint
        requires { weight ≤ self.frequency.n }
        ensures { IsPoint result self.frequency (edge_naming self.frequency.n self.face.index (corner_number opposite) weight) }
    {
        let (other, place) = other_edge(self.face, opposite);
        if self.face.index < other.index {
            FacePoint::on_edge(self.frequency, self.face, opposite, weight)
        } else {
            FacePoint::on_edge(self.frequency, other, place, self.frequency.n - weight)
        }
    }

    // The first appearance of a point's vertex.
    pub fn naming(self) -> FacePoint
        ensures { IsPoint result self.frequency (naming self.frequency.n (point_of self)) }
    {
        let n = self.frequency.n;
        let FacePoint { a, b, .. } = self;
        match (a == 0, b == 0, a + b == n) {
            (true, true, _) => self.corner_naming(C),
            (true, false, true) => self.corner_naming(B),
            (true, false, false) => self.edge_naming(A, b),
            (false, true, true) => self.corner_naming(A),
            (false, true, false) => self.edge_naming(B, n - a),
            (false, false, true) => self.edge_naming(C, a),
            (false, false, false) => self,
        }
    }
}
