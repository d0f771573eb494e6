// Replays the recorded answers of the Rust source, in data/, on the engine: one line a file, with its records and the differences counted. Then
// records that are wrong on purpose, with those counted that were noticed.
#![tactic(auto)]

mod arithmetic;
mod buffers;
mod lattices;
mod locators;
mod meshes;
mod places;
mod queries;
mod renumberings;
mod report;
mod searches;
mod slices;

use records::{Fault, Hashes, Reader, Words};
use report::Tally;
use std::io;
use std::rt::Files;

// What the records of a file hold: README.md says which words. An enum and not a function pointer: a call through one asks for its `pre`,
// which would have to be shown of each entry of the table.
#[derive(Clone, Copy)]
enum Kind {
    MulAdd,
    Sqrt,
    Integral,
    TotalOrder,
    FaceChoice,
    AnalyticQuery,
    Lattice,
    LatticeHash,
    GridHash,
    Mesh,
    Renumbering,
    GridQuery,
    MinimumNumber,
    ToF32,
    Packing,
    PackedLattices,
    StepsBetween,
    VerticesWithin,
    WalkIslands,
}

// A file of records of one kind.
#[derive(Clone, Copy)]
struct File {
    name: &'static str,
    kind: Kind,
}

// A kind's number is its place here. Right records are also read by this table, so that a wrong kind shows as differences.
static FILES: [File; 19] = [
    File {
        name: "mul_add",
        kind: Kind::MulAdd,
    },
    File {
        name: "sqrt",
        kind: Kind::Sqrt,
    },
    File {
        name: "integral",
        kind: Kind::Integral,
    },
    File {
        name: "total_order",
        kind: Kind::TotalOrder,
    },
    File {
        name: "face_choices",
        kind: Kind::FaceChoice,
    },
    File {
        name: "analytic_queries",
        kind: Kind::AnalyticQuery,
    },
    File {
        name: "lattices",
        kind: Kind::Lattice,
    },
    File {
        name: "lattice_hashes",
        kind: Kind::LatticeHash,
    },
    File {
        name: "grid_hashes",
        kind: Kind::GridHash,
    },
    File {
        name: "meshes",
        kind: Kind::Mesh,
    },
    File {
        name: "renumberings",
        kind: Kind::Renumbering,
    },
    File {
        name: "grid_queries",
        kind: Kind::GridQuery,
    },
    File {
        name: "minimum_number",
        kind: Kind::MinimumNumber,
    },
    File {
        name: "to_f32",
        kind: Kind::ToF32,
    },
    File {
        name: "packings",
        kind: Kind::Packing,
    },
    File {
        name: "packed_lattices",
        kind: Kind::PackedLattices,
    },
    File {
        name: "steps_between",
        kind: Kind::StepsBetween,
    },
    File {
        name: "vertices_within",
        kind: Kind::VerticesWithin,
    },
    File {
        name: "walk_islands",
        kind: Kind::WalkIslands,
    },
];

static LOCATORS: [&str; 5] = [
    "locators_1",
    "locators_2",
    "locators_3",
    "locators_7",
    "locators_20",
];

// The record that a reader stands before.
fn replay_record(kind: Kind, reader: &mut Reader) -> Result<(), Fault> {
    match kind {
        Kind::MulAdd => arithmetic::replay_mul_add(reader),
        Kind::Sqrt => arithmetic::replay_sqrt(reader),
        Kind::Integral => arithmetic::replay_integral(reader),
        Kind::TotalOrder => arithmetic::replay_total_order(reader),
        Kind::FaceChoice => queries::face_choice(reader),
        Kind::AnalyticQuery => queries::analytic_query(reader),
        Kind::Lattice => lattices::lattice::<Words>(reader),
        Kind::LatticeHash => lattices::lattice::<Hashes>(reader),
        Kind::GridHash => lattices::lattice_with_grid(reader),
        Kind::Mesh => meshes::mesh(reader),
        Kind::Renumbering => renumberings::renumbering(reader),
        Kind::GridQuery => queries::grid_query(reader),
        Kind::MinimumNumber => arithmetic::replay_minimum_number(reader),
        Kind::ToF32 => arithmetic::replay_to_f32(reader),
        Kind::Packing => buffers::packing(reader),
        Kind::PackedLattices => buffers::packed_lattices(reader),
        Kind::StepsBetween => searches::steps_between(reader),
        Kind::VerticesWithin => searches::vertices_within(reader),
        Kind::WalkIslands => searches::walk_islands(reader),
    }
}

fn replay(rt: &(impl Files + Print), file: File) -> io::Result<()> {
    let kind = file.kind;
    let tally = Tally::of_file(rt, file.name, |text| {
        Tally::default().count_lines(text, |reader| replay_record(kind, reader))
    })?;
    report::print_differences(rt, file.name, tally)
}

// ---- records that are wrong on purpose

// A record behind the number of its kind. Without such a number nothing is compared, and the line passes as if nothing differed.
fn replay_numbered(reader: &mut Reader) -> Result<(), Fault> {
    if let Ok(number) = reader.take::<u32>()
        && let Some(file) = FILES.get(number as usize)
    {
        return replay_record(file.kind, reader);
    }
    reader.skip_line();
    Ok(())
}

// A small buffer: the compiler may put it into main's frame, which lies under every other call's.
fn replay_wrong(rt: &(impl Files + Print), name: &str) -> io::Result<()> {
    let tally = Tally::of_file_within::<32768, _>(rt, name, |text| {
        Tally::default().count_lines(text, replay_numbered)
    })?;
    report::print_noticed(rt, name, tally)
}

fn main(rt: HostRuntime) -> io::Result<()> {
    for file in &FILES {
        replay(&rt, *file)?;
    }
    for name in &LOCATORS {
        report::print_differences(&rt, name, locators::tally(&rt, name)?)?;
    }
    replay_wrong(&rt, "wrong_records")?;
    let name = "wrong_locators";
    report::print_noticed(&rt, name, locators::tally(&rt, name)?)
}
