// The icosahedron that the lattice subdivides: its twelve points, its twenty master faces, and the frequencies of its lattices.
// An index of a point has to be below 12, and `Face::new` asks for a number below 20: no function here is an entry point.
#![tactic(auto)]

ghost use Rattle.std.specs.Prelude.{◌≡◌, ◌+◌, ◌<◌, ◌≤◌};
ghost use Rattle.icosahedron.specs.Icosahedron.{icosahedron_point, face_corner, corner_point};
ghost use Rattle.icosahedron.specs.Slots.{slot_of, slots_per_face, lattice_vertex_count};

mod frequency;

pub use frequency::Frequency;
use vector::Vector3;

// The corners of a master face, in their order. A lattice point has its weights a, b and c on them.
#[derive(Clone, Copy, Debug, PartialEq, Eq)]
pub enum Corner {
    A,
    B,
    C,
}

impl Corner {
    ghost use Rattle.icosahedron.specs.Corners.{corner_number};

    // The corner's place in its face.
    pub fn place(self) -> usize
        ensures place { result ≡ corner_number self }
        ensures below { result < 3 }
    {
        self as usize
    }
}

// A master face, by its index.
#[derive(Clone, Copy, Debug)]
pub struct Face {
    pub index: usize,
    pub ghost in_range: { index < 20 },
}

// The twelve points: the bits that `icosahedron_points` of the source printed once.
const POINTS: [Vector3; 12] = [
    Vector3 {
        z: 1.0,
        ..Vector3::ZERO
    },
    Vector3 {
        x: 0.8944271909999159,
        y: 0.0,
        z: 0.44721359549995804,
    },
    Vector3 {
        x: 0.27639320225002106,
        y: 0.8506508083520399,
        z: 0.44721359549995804,
    },
    Vector3 {
        x: -0.7236067977499788,
        y: 0.5257311121191337,
        z: 0.44721359549995804,
    },
    Vector3 {
        x: -0.723606797749979,
        y: -0.5257311121191335,
        z: 0.44721359549995804,
    },
    Vector3 {
        x: 0.27639320225002084,
        y: -0.85065080835204,
        z: 0.44721359549995804,
    },
    Vector3 {
        x: 0.7236067977499789,
        y: 0.5257311121191336,
        z: -0.4472135954999579,
    },
    Vector3 {
        x: -0.27639320225002095,
        y: 0.85065080835204,
        z: -0.4472135954999579,
    },
    Vector3 {
        x: -0.8944271909999159,
        y: 1.0953573965284052e-16,
        z: -0.4472135954999579,
    },
    Vector3 {
        x: -0.2763932022500211,
        y: -0.8506508083520399,
        z: -0.4472135954999579,
    },
    Vector3 {
        x: 0.7236067977499788,
        y: -0.5257311121191338,
        z: -0.4472135954999579,
    },
    Vector3 {
        z: -1.0,
        ..Vector3::ZERO
    },
];

// The points of each master face: top 0 to 4, middle 5 to 14, bottom 15 to 19.
const FACE_VERTICES: [[u8; 3]; 20] = [
    [0, 1, 2],
    [0, 2, 3],
    [0, 3, 4],
    [0, 4, 5],
    [0, 5, 1],
    [6, 2, 1],
    [2, 6, 7],
    [7, 3, 2],
    [3, 7, 8],
    [8, 4, 3],
    [4, 8, 9],
    [9, 5, 4],
    [5, 9, 10],
    [10, 1, 5],
    [1, 10, 6],
    [11, 7, 6],
    [11, 8, 7],
    [11, 9, 8],
    [11, 10, 9],
    [11, 6, 10],
];

#[tactic(auto, unfolding(crate::specs::Icosahedron::icosahedron_point))]
pub fn icosahedron_point(index: usize) -> Vector3
    requires { index < 12 }
    ensures { result ≡ icosahedron_point index }
{
    POINTS[index]
}

impl Face {
    ghost use Rattle.icosahedron.specs.Corners.{corner_number};

    pub fn new(index: usize) -> Face
        requires { index < 20 }
        ensures { result.index ≡ index }
    {
        Face { index }
    }

    // The index of the point at a corner.
    pub fn corner(self, corner: Corner) -> u8
        ensures { result ≡ face_corner self.index (corner_number corner) }
    {
        FACE_VERTICES[self.index][corner.place()]
    }

    // The point at a corner.
    #[tactic(auto, using(crate::proofs::Faces::face_corner_below))]
    pub fn corner_point(self, corner: Corner) -> Vector3
        ensures { result ≡ corner_point self.index (corner_number corner) }
    {
        icosahedron_point(self.corner(corner) as usize)
    }
}

// This and the two functions behind it are of every number up to 80, and so of 0 too, which is no `Frequency`: its methods call them.
// The place of the lattice point (a, b, n - a - b) among the slots of its face.
#[inline(always)]
#[tactic(auto, using(crate::proofs::Slots::predecessor_product), unfolding(crate::specs::Slots::slot_of))]
pub fn tri_index(n: usize, a: usize, b: usize) -> usize
    requires range { n ≤ 80 }
    requires weights { a + b ≤ n }
    ensures { result ≡ slot_of n a b }
{
    a * (n + 1) - (a * a - a) / 2 + b
}

// How many lattice points a master face has.
#[inline(always)]
#[tactic(auto, unfolding(crate::specs::Slots::slots_per_face))]
pub fn slots_per_face(n: usize) -> usize
    requires { n ≤ 80 }
    ensures { result ≡ slots_per_face n }
{
    (n + 1) * (n + 2) / 2
}

// How many vertices the lattice of frequency n has.
#[inline(always)]
#[tactic(auto, unfolding(crate::specs::Slots::lattice_vertex_count))]
pub fn lattice_vertex_count(n: usize) -> usize
    requires { n ≤ 80 }
    ensures { result ≡ lattice_vertex_count n }
{
    10 * (n * n) + 2
}
