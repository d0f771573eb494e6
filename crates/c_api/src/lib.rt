// The engine for C and Rust: include/koshirga.h declares these functions. Slices and numbers stand apart, as C lends them.
#![tactic(auto)]

ghost use Rattle.std.specs.Prelude.{◌≡◌};
ghost use Rattle.analytic.specs.FaceChoice.{face_index};
ghost use Rattle.c_api.specs.Code.{verdict_answer, face_answer, analytic_answer, vertex_answer, walk_answer, islands_answer, steps_answer, within_answer, build_answer, pack_answer, conversion_answer, nearest_answer, located_answer, refusal_code};

pub mod arithmetic;
pub mod buffers;
pub mod grids;
pub mod lattices;
pub mod meshes;
pub mod vectors;

use binary64::Converted;
use grid::Built;
use grid_query::{LocatedTriangle, Nearest};
use icosahedron::Face;
use islands::IslandCount;
use packing::LevelRecord;
use refusal::Refusal;
use steps::Steps;

// What C receives: a Result as one struct, which C has no other form for. Every answer has the refusal's number first, 0 where the call
// was accepted. The other fields of a refused answer are 0, but for the index that row 18 carries, in the answers of the calls that have that row.
// A block for each, as the fields differ.
#[repr(C)]
#[derive(Clone, Copy, Debug, Default)]
pub struct VerdictAnswer {
    pub refusal: u32,
    pub index: usize,
}

impl From<Result<(), Refusal>> for VerdictAnswer {
    ghost from_gives = { λ outcome answer. answer ≡ verdict_answer outcome };

    fn from(outcome: Result<(), Refusal>) -> VerdictAnswer {
        match outcome {
            Ok(()) => VerdictAnswer::default(),
            Err(reason) => VerdictAnswer {
                refusal: reason.number(),
                index: reason.index(),
            },
        }
    }
}

#[repr(C)]
#[derive(Clone, Copy, Debug, Default)]
pub struct FaceAnswer {
    pub refusal: u32,
    pub face: u32,
}

impl From<Result<Face, Refusal>> for FaceAnswer {
    ghost from_gives = { λ outcome answer. answer ≡ face_answer (face_index outcome) };

    fn from(outcome: Result<Face, Refusal>) -> FaceAnswer {
        match outcome {
            Ok(face) => FaceAnswer {
                face: face.index as u32,
                ..FaceAnswer::default()
            },
            Err(reason) => FaceAnswer {
                refusal: reason.number(),
                ..FaceAnswer::default()
            },
        }
    }
}

#[repr(C)]
#[derive(Clone, Copy, Debug, Default)]
pub struct AnalyticAnswer {
    pub refusal: u32,
    pub first: u32,
    pub second: u32,
    pub third: u32,
    pub u: f64,
    pub v: f64,
    pub w: f64,
}

impl From<Result<analytic::Located, Refusal>> for AnalyticAnswer {
    ghost from_gives = { λ outcome answer. answer ≡ analytic_answer outcome };

    fn from(outcome: Result<analytic::Located, Refusal>) -> AnalyticAnswer {
        match outcome {
            Ok(located) => AnalyticAnswer {
                first: u32::from(located.triple.first),
                second: u32::from(located.triple.second),
                third: u32::from(located.triple.third),
                u: located.weights.u,
                v: located.weights.v,
                w: located.weights.w,
                ..AnalyticAnswer::default()
            },
            Err(reason) => AnalyticAnswer {
                refusal: reason.number(),
                ..AnalyticAnswer::default()
            },
        }
    }
}

#[repr(C)]
#[derive(Clone, Copy, Debug, Default)]
pub struct VertexAnswer {
    pub refusal: u32,
    pub id: u32,
}

impl From<Result<u16, Refusal>> for VertexAnswer {
    ghost from_gives = { λ outcome answer. answer ≡ vertex_answer outcome };

    fn from(outcome: Result<u16, Refusal>) -> VertexAnswer {
        match outcome {
            Ok(id) => VertexAnswer {
                id: u32::from(id),
                ..VertexAnswer::default()
            },
            Err(reason) => VertexAnswer {
                refusal: reason.number(),
                ..VertexAnswer::default()
            },
        }
    }
}

#[repr(C)]
#[derive(Clone, Copy, Debug, Default)]
pub struct WalkAnswer {
    pub refusal: u32,
    pub entries_read: u32,
    pub index: usize,
}

impl From<Result<u32, Refusal>> for WalkAnswer {
    ghost from_gives = { λ outcome answer. answer ≡ walk_answer outcome };

    fn from(outcome: Result<u32, Refusal>) -> WalkAnswer {
        match outcome {
            Ok(entries_read) => WalkAnswer {
                entries_read,
                ..WalkAnswer::default()
            },
            Err(reason) => WalkAnswer {
                refusal: reason.number(),
                index: reason.index(),
                ..WalkAnswer::default()
            },
        }
    }
}

#[repr(C)]
#[derive(Clone, Copy, Debug, Default)]
pub struct IslandsAnswer {
    pub refusal: u32,
    pub islands: u32,
    pub entries_read: u32,
    pub index: usize,
}

impl From<Result<IslandCount, Refusal>> for IslandsAnswer {
    ghost from_gives = { λ outcome answer. answer ≡ islands_answer outcome };

    fn from(outcome: Result<IslandCount, Refusal>) -> IslandsAnswer {
        match outcome {
            Ok(counted) => IslandsAnswer {
                islands: counted.islands,
                entries_read: counted.entries_read,
                ..IslandsAnswer::default()
            },
            Err(reason) => IslandsAnswer {
                refusal: reason.number(),
                index: reason.index(),
                ..IslandsAnswer::default()
            },
        }
    }
}

#[repr(C)]
#[derive(Clone, Copy, Debug, Default)]
pub struct StepsAnswer {
    pub refusal: u32,
    pub steps: u32,
    pub entries_read: u32,
    pub index: usize,
}

impl From<Result<Steps, Refusal>> for StepsAnswer {
    ghost from_gives = { λ outcome answer. answer ≡ steps_answer outcome };

    fn from(outcome: Result<Steps, Refusal>) -> StepsAnswer {
        match outcome {
            Ok(found) => StepsAnswer {
                steps: found.steps,
                entries_read: found.entries_read,
                ..StepsAnswer::default()
            },
            Err(reason) => StepsAnswer {
                refusal: reason.number(),
                index: reason.index(),
                ..StepsAnswer::default()
            },
        }
    }
}

#[repr(C)]
#[derive(Clone, Copy, Debug, Default)]
pub struct WithinAnswer {
    pub refusal: u32,
    pub vertices: u32,
    pub index: usize,
}

impl From<Result<u32, Refusal>> for WithinAnswer {
    ghost from_gives = { λ outcome answer. answer ≡ within_answer outcome };

    fn from(outcome: Result<u32, Refusal>) -> WithinAnswer {
        match outcome {
            Ok(vertices) => WithinAnswer {
                vertices,
                ..WithinAnswer::default()
            },
            Err(reason) => WithinAnswer {
                refusal: reason.number(),
                index: reason.index(),
                ..WithinAnswer::default()
            },
        }
    }
}

#[repr(C)]
#[derive(Clone, Copy, Debug, Default)]
pub struct BuildAnswer {
    pub refusal: u32,
    pub side: u32,
    pub index: usize,
    pub held: u32,
}

impl From<Result<Built, Refusal>> for BuildAnswer {
    ghost from_gives = { λ outcome answer. answer ≡ build_answer outcome };

    fn from(outcome: Result<Built, Refusal>) -> BuildAnswer {
        match outcome {
            Ok(built) => BuildAnswer {
                side: built.side,
                held: built.held,
                ..BuildAnswer::default()
            },
            Err(reason) => BuildAnswer {
                refusal: reason.number(),
                index: reason.index(),
                ..BuildAnswer::default()
            },
        }
    }
}

// The record stands whole in the answer, so that a viewer can hand its seven numbers on as they are.
#[repr(C)]
#[derive(Clone, Copy, Debug, Default)]
pub struct PackAnswer {
    pub refusal: u32,
    pub level: LevelRecord,
    pub index: usize,
}

impl From<Result<LevelRecord, Refusal>> for PackAnswer {
    ghost from_gives = { λ outcome answer. answer ≡ pack_answer outcome };

    fn from(outcome: Result<LevelRecord, Refusal>) -> PackAnswer {
        match outcome {
            Ok(level) => PackAnswer {
                level,
                ..PackAnswer::default()
            },
            Err(reason) => PackAnswer {
                refusal: reason.number(),
                index: reason.index(),
                ..PackAnswer::default()
            },
        }
    }
}

// A conversion is never refused: its number comes first, and what became of the value second.
#[repr(C)]
#[derive(Clone, Copy, Debug, Default)]
pub struct ConversionAnswer {
    pub whole: i64,
    pub how: u32,
}

impl From<Converted> for ConversionAnswer {
    ghost from_gives = { λ converted answer. answer ≡ conversion_answer converted };

    fn from(converted: Converted) -> ConversionAnswer {
        ConversionAnswer {
            whole: converted.whole,
            how: converted.how as u32,
        }
    }
}

#[repr(C)]
#[derive(Clone, Copy, Debug, Default)]
pub struct NearestAnswer {
    pub refusal: u32,
    pub id: u32,
    pub candidates: u32,
    pub distance: f64,
    pub index: usize,
}

impl From<Result<Nearest, Refusal>> for NearestAnswer {
    ghost from_gives = { λ outcome answer. answer ≡ nearest_answer outcome };

    fn from(outcome: Result<Nearest, Refusal>) -> NearestAnswer {
        match outcome {
            Ok(nearest) => NearestAnswer {
                id: u32::from(nearest.id),
                candidates: nearest.candidates,
                distance: nearest.distance,
                ..NearestAnswer::default()
            },
            Err(reason) => NearestAnswer {
                refusal: reason.number(),
                index: reason.index(),
                ..NearestAnswer::default()
            },
        }
    }
}

#[repr(C)]
#[derive(Clone, Copy, Debug, Default)]
pub struct LocatedAnswer {
    pub refusal: u32,
    pub first: u32,
    pub second: u32,
    pub third: u32,
    pub u: f64,
    pub v: f64,
    pub w: f64,
    pub least: f64,
    pub index: usize,
}

impl From<Result<LocatedTriangle, Refusal>> for LocatedAnswer {
    ghost from_gives = { λ outcome answer. answer ≡ located_answer outcome };

    fn from(outcome: Result<LocatedTriangle, Refusal>) -> LocatedAnswer {
        match outcome {
            Ok(located) => LocatedAnswer {
                first: u32::from(located.triple.first),
                second: u32::from(located.triple.second),
                third: u32::from(located.triple.third),
                u: located.weights.u,
                v: located.weights.v,
                w: located.weights.w,
                least: located.least,
                ..LocatedAnswer::default()
            },
            Err(reason) => LocatedAnswer {
                refusal: reason.number(),
                index: reason.index(),
                ..LocatedAnswer::default()
            },
        }
    }
}

// 0 where a call is accepted, and otherwise the refusal's number. A function and no `From`: neither `Result` nor `u32` is a type of ours.
fn refusal_code<T: Drop>(outcome: Result<T, Refusal>) -> u32
    ensures { result ≡ refusal_code outcome }
{
    match outcome {
        Ok(_) => 0,
        Err(reason) => reason.number(),
    }
}
