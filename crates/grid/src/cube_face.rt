// The faces of the cube: a point as a face shows it, and the face of a point's dominant axis.
ghost use Rattle.std.specs.Prelude.{◌≡◌, if◌then◌else◌};
ghost use Rattle.std.specs.Float.Ieee.{lt, neg};
ghost use Rattle.binary64.specs.Constants.{positive_zero};
ghost use Rattle.grid.specs.CubeFace.{face_projection, side_of_axis, dominant_face};

use vector::Vector3;

// A point as a cube face shows it: u and w across the face, d toward it.
#[derive(Clone, Copy)]
pub struct Projected {
    pub u: f64,
    pub w: f64,
    pub d: f64,
}

// The point as the face shows it.
#[tactic(auto, unfolding(crate::specs::CubeFace::face_projection))]
pub fn cube_face_project(face: usize, v: Vector3) -> Projected
    ensures { result ≡ face_projection face v }
{
    // By the face's number, 0 to 5.
    match face {
        0 => Projected {
            u: v.y,
            w: v.z,
            d: v.x,
        },
        1 => Projected {
            u: -v.y,
            w: v.z,
            d: -v.x,
        },
        2 => Projected {
            u: v.x,
            w: v.z,
            d: v.y,
        },
        3 => Projected {
            u: -v.x,
            w: v.z,
            d: -v.y,
        },
        4 => Projected {
            u: v.x,
            w: v.y,
            d: v.z,
        },
        _ => Projected {
            u: -v.x,
            w: v.y,
            d: -v.z,
        },
    }
}

// The magnitude of a component, as the datasheet states it and not by the library's `abs`: a negative zero stays, since comparisons don't see its sign.
fn magnitude(x: f64) -> f64
    ensures { result ≡ (if lt x positive_zero then neg x else x) }
{
    if x < 0.0 { -x } else { x }
}

// One of the two faces of an axis, by the sign of the component along it.
fn side_of_axis(component: f64, positive: usize, negative: usize) -> usize
    ensures { result ≡ side_of_axis component positive negative }
{
    if component > 0.0 { positive } else { negative }
}

// The face of the dominant axis.
pub fn dominant_face(v: Vector3) -> usize
    ensures { result ≡ dominant_face v }
{
    let along_x = magnitude(v.x);
    let along_y = magnitude(v.y);
    let along_z = magnitude(v.z);
    // The face on each axis first, so that the choice of one is no jump.
    let on_x = side_of_axis(v.x, 0, 1);
    let on_y = side_of_axis(v.y, 2, 3);
    let on_z = side_of_axis(v.z, 4, 5);
    if (along_y <= along_x) & (along_z <= along_x) {
        on_x
    } else if along_z <= along_y {
        on_y
    } else {
        on_z
    }
}
