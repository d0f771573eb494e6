// The positions of the vertices, and the starts of their lists.
ghost use Rattle.std.specs.Prelude.{◌≡◌, ◌+◌, ◌*◌, ◌<◌, ◌≤◌, length, slice_set};
ghost use Rattle.sequences.specs.Tabulate.{overwrite};
ghost use Rattle.lattice.specs.Lattice.{point_position, lattice_mesh};
ghost use Rattle.lattice.specs.Naming.{point_of};
ghost use Rattle.lattice.specs.Inside.{face_corners};

use crate::face_points::FacePoint;
use crate::id_table::IdTable;
use icosahedron::{Corner, Face};
use std::num::nearest_u64_to_f64;
use vector::Vector3;

// The points at the corners of a master face, in their order.
#[tactic(auto, unfolding(crate::specs::Inside::face_corners))]
fn face_corners(face: Face) -> [Vector3; 3]
    ensures { result ≡ face_corners face.index }
{
    [
        face.corner_point(Corner::A),
        face.corner_point(Corner::B),
        face.corner_point(Corner::C),
    ]
}

// ((a·P1 + b·P2) + c·P3)/n, normalised.
fn position_of(corners: [Vector3; 3], p: FacePoint) -> Vector3
    requires { corners ≡ face_corners p.face.index }
    ensures { result ≡ point_position p.frequency.n (point_of p) }
{
    let n = p.frequency.n;
    let [first, second, third] = corners;
    let a = nearest_u64_to_f64(p.a as u64);
    let b = nearest_u64_to_f64(p.b as u64);
    let c = nearest_u64_to_f64((n - p.a - p.b) as u64);
    let mean = (first * a + second * b + third * c) / nearest_u64_to_f64(n as u64);
    mean.normalize()
}

// Three coordinates at a vertex. A store for each field: for a copy, the three would first have to be put into an array.
fn put_position(positions: &mut [f64], vertex: usize, position: Vector3)
    requires { vertex * 3 + 2 < length positions.old }
    ensures { positions.new ≡ slice_set (slice_set (slice_set positions.old (vertex * 3) position.x) (vertex * 3 + 1) position.y) (vertex * 3 + 2) position.z }
{
    positions[vertex * 3] = position.x;
    positions[vertex * 3 + 1] = position.y;
    positions[vertex * 3 + 2] = position.z;
}

// Positions and list starts: a point with the next id is the next vertex. The loops are as in `fill_ids`.
pub fn fill_vertices(table: IdTable, positions: &mut [f64], starts: &mut [u32])
    requires positions { length (lattice_mesh table.frequency.n).positions ≤ length positions.old }
    requires starts { length (lattice_mesh table.frequency.n).starts ≤ length starts.old }
    ensures positions { positions.new ≡ overwrite (lattice_mesh table.entry.frequency.n).positions positions.old }
    ensures starts { starts.new ≡ overwrite (lattice_mesh table.entry.frequency.n).starts starts.old }
{
    let frequency = table.frequency;
    let n = frequency.n;
    // Counted as in `fill_ids`: by `ids.iter()` each round would have a case for a missing id, and none is missing.
    let mut place = 0;
    let mut vertex: usize = 0;
    let mut start: u32 = 0;
    for index in 0..20 {
        let face = Face::new(index);
        let corners = face_corners(face);
        for a in 0..n + 1 {
            for b in 0..n - a + 1 {
                if table.ids[place] as usize == vertex {
                    let p = FacePoint::new(frequency, face, a, b);
                    put_position(positions, vertex, position_of(corners, p));
                    starts[vertex] = start;
                    start += p.neighbour_count();
                    vertex += 1;
                }
                place += 1;
            }
        }
    }
    starts[vertex] = start;
}
