// Lattices, and the queries of a lattice that need no grid.
ghost use Rattle.std.specs.Prelude.{◌≡◌};
ghost use Rattle.lattice.specs.Lattice.{lattice_slices, lattice_geometry};
ghost use Rattle.analytic.specs.FaceChoice.{choose_face};
ghost use Rattle.analytic.specs.Location.{analytic_locate, analytic_nearest};
ghost use Rattle.c_api.specs.Code.{signs_with, outside_with, face_answer, analytic_answer, vertex_answer};
ghost use Rattle.c_api.specs.Lent.{lattice_left, lattice_left_of};

use crate::{AnalyticAnswer, FaceAnswer, VertexAnswer, refusal_code};
use analytic::Signs;
use master_face::Three;
use vector::Vector3;

pub fn koshirga_choose_face(
    i: bool,
    j: bool,
    k: bool,
    first: bool,
    second: bool,
    third: bool,
) -> FaceAnswer
    ensures { result ≡ face_answer (choose_face (signs_with i j k) (outside_with first second third)) }
{
    let signs = Signs { i, j, k };
    let outside = Three {
        first,
        second,
        third,
    };
    analytic::choose_face(signs, outside).into()
}

pub fn koshirga_analytic_locate(frequency: u32, ids: &[u16], direction: Vector3) -> AnalyticAnswer
    ensures { result ≡ analytic_answer (analytic_locate frequency ids.now direction) }
{
    analytic::locate(frequency, ids, direction).into()
}

pub fn koshirga_analytic_nearest(frequency: u32, ids: &[u16], direction: Vector3) -> VertexAnswer
    ensures { result ≡ vertex_answer (analytic_nearest frequency ids.now direction) }
{
    analytic::find_nearest_vertex(frequency, ids, direction).into()
}

// 0 where the lattice was written, and otherwise the refusal's number: then all slices and the mark are as they were.
pub fn koshirga_lattice(
    frequency: u32,
    positions: &mut [f64],
    starts: &mut [u32],
    entries: &mut [u16],
    lists_ascend: &mut bool,
    ids: &mut [u16],
) -> u32
    ensures { lattice_left result (lattice_slices positions.new starts.new entries.new ids.new) lists_ascend.new ≡ lattice_left_of (lattice_geometry frequency (lattice_slices positions.old starts.old entries.old ids.old) lists_ascend.old) }
{
    let outcome = lattice::lattice_geometry(
        frequency,
        positions,
        starts,
        entries,
        lists_ascend,
        ids,
    );
    refusal_code(outcome)
}
