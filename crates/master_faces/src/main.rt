// The twenty master faces, worked out from the icosahedron's points and held to the table that queries read, to the last bit of each number.
// The table is proved to be right; this shows that what the compilers made of both is the same.
#![tactic(auto)]

ghost use Rattle.std.specs.Prelude.{◌≡◌, ◌↔◌, IsTrue};
ghost use Rattle.master_faces.specs.Ranks.{face_ranks};

use binary64::rank;
use icosahedron::{Corner, Face};
use master_face::MasterFace;
use master_face::faces::master_face_of;
use std::io;

// The ranks of a face's numbers: two numbers have one rank exactly where they have the same bits, or are both NaN.
fn ranks(face: MasterFace) -> [u64; 32]
    ensures { result ≡ face_ranks face }
{
    let MasterFace {
        corners,
        normal,
        plane_offset,
        edge_planes,
        v0,
        v1,
        gram,
    } = face;
    [
        rank(corners.first.x),
        rank(corners.first.y),
        rank(corners.first.z),
        rank(corners.second.x),
        rank(corners.second.y),
        rank(corners.second.z),
        rank(corners.third.x),
        rank(corners.third.y),
        rank(corners.third.z),
        rank(normal.x),
        rank(normal.y),
        rank(normal.z),
        rank(plane_offset),
        rank(edge_planes.first.x),
        rank(edge_planes.first.y),
        rank(edge_planes.first.z),
        rank(edge_planes.second.x),
        rank(edge_planes.second.y),
        rank(edge_planes.second.z),
        rank(edge_planes.third.x),
        rank(edge_planes.third.y),
        rank(edge_planes.third.z),
        rank(v0.x),
        rank(v0.y),
        rank(v0.z),
        rank(v1.x),
        rank(v1.y),
        rank(v1.z),
        rank(gram.d00),
        rank(gram.d01),
        rank(gram.d11),
        rank(gram.inv_denom),
    ]
}

fn same_bits(a: MasterFace, b: MasterFace) -> bool
    ensures { IsTrue result ↔ (face_ranks a ≡ face_ranks b) }
{
    ranks(a) == ranks(b)
}

fn main(rt: HostRuntime) -> io::Result<()> {
    for index in 0..20 {
        let face = Face::new(index);
        let worked_out = MasterFace::new(
            face.corner_point(Corner::A),
            face.corner_point(Corner::B),
            face.corner_point(Corner::C),
        );
        if same_bits(master_face_of(face), worked_out) {
            println!(rt; "face {index}: as worked out")?;
        } else {
            println!(rt; "face {index}: differs")?;
        }
    }
    Ok(())
}
