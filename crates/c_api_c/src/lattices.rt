// Lattices, and the queries of a lattice that need no grid.
ghost use Rattle.std.specs.Prelude.{◌≡◌};
ghost use Rattle.lattice.specs.Lattice.{lattice_slices, lattice_geometry};
ghost use Rattle.analytic.specs.FaceChoice.{choose_face};
ghost use Rattle.analytic.specs.Location.{analytic_locate, analytic_nearest};
ghost use Rattle.c_api.specs.Code.{signs_with, outside_with, face_answer, analytic_answer, vertex_answer};
ghost use Rattle.c_api.specs.Lent.{lattice_left, lattice_left_of};

use c_api::{AnalyticAnswer, FaceAnswer, VertexAnswer};
use vector::Vector3;

#[unsafe(no_mangle)]
pub extern "C" fn koshirga_choose_face(
    i: bool,
    j: bool,
    k: bool,
    first: bool,
    second: bool,
    third: bool,
) -> FaceAnswer
    ensures { result ≡ face_answer (choose_face (signs_with i j k) (outside_with first second third)) }
{
    c_api::lattices::koshirga_choose_face(i, j, k, first, second, third)
}

#[unsafe(no_mangle)]
pub extern "C" fn koshirga_analytic_locate(
    frequency: u32,
    ids: &[u16],
    direction: Vector3,
) -> AnalyticAnswer
    ensures { result ≡ analytic_answer (analytic_locate frequency ids.now direction) }
{
    c_api::lattices::koshirga_analytic_locate(frequency, ids, direction)
}

#[unsafe(no_mangle)]
pub extern "C" fn koshirga_analytic_nearest(
    frequency: u32,
    ids: &[u16],
    direction: Vector3,
) -> VertexAnswer
    ensures { result ≡ vertex_answer (analytic_nearest frequency ids.now direction) }
{
    c_api::lattices::koshirga_analytic_nearest(frequency, ids, direction)
}

// 0 where the lattice was written, and otherwise the refusal's number: then all slices and the mark are as they were.
#[unsafe(no_mangle)]
pub extern "C" fn koshirga_lattice(
    frequency: u32,
    positions: &mut [f64],
    starts: &mut [u32],
    entries: &mut [u16],
    lists_ascend: &mut bool,
    ids: &mut [u16],
) -> u32
    ensures { lattice_left result (lattice_slices positions.new starts.new entries.new ids.new) lists_ascend.new ≡ lattice_left_of (lattice_geometry frequency (lattice_slices positions.old starts.old entries.old ids.old) lists_ascend.old) }
{
    c_api::lattices::koshirga_lattice(frequency, positions, starts, entries, lists_ascend, ids)
}
