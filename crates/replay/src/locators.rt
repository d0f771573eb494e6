// Both locators on the lattice of a frequency.
use crate::places::{F64_BEFORE, U16_BEFORE, U32_BEFORE};
use crate::report::Tally;
use crate::slices::{Grid, GridSlices, LatticeSlices, MeshSlices, Table, expect_built};
use crate::{queries, report};
use c_api::BuildAnswer;
use records::{Fault, Reader};
use std::io;
use std::rt::Files;

// A direction; the answers of both locators.
fn direction(reader: &mut Reader, table: Table, grid: Grid) -> Result<(), Fault> {
    let v = queries::take_direction(reader)?;
    queries::analytic_answers(reader, table, v)?;
    queries::grid_answers(reader, grid, v)
}

// The first record, taken word by word. Behind a fault each word is 0, so that the others are asked of what was read before it.
#[derive(Drop)]
struct FirstRecord<'t> {
    reader: Reader<'t>,
    outcome: Result<(), Fault>,
}

impl FirstRecord<'_> {
    ghost use Rattle.std.specs.Prelude.{◌≤◌, length};

    fn take(&mut self) -> u32 {
        if self.outcome.is_ok() {
            match self.reader.take() {
                Ok(number) => return number,
                Err(fault) => self.outcome = Err(fault),
            }
        }
        0
    }

    fn take_length(&mut self, most: usize) -> usize
        ensures { result ≤ most }
    {
        if self.outcome.is_ok() {
            match self.reader.take_length(most) {
                Ok(places) => return places,
                Err(fault) => self.outcome = Err(fault),
            }
        }
        0
    }

    // The next word is a length: a slice's first places, so many of them.
    fn cut<'a, T>(&mut self, slice: &'a mut [T]) -> &'a mut [T] {
        let length = self.take_length(slice.len());
        &mut slice[..length]
    }

    fn expect(&mut self, number: u32) {
        if self.outcome.is_ok() {
            self.outcome = self.reader.expect(number);
        }
    }

    // The builder's answer, which the record ends with.
    fn expect_built(&mut self, answer: BuildAnswer) -> Result<(), Fault> {
        self.outcome?;
        expect_built(&mut self.reader, answer)?;
        self.reader.finish()
    }
}

// Each record behind the first is a direction.
fn replay_directions(first: Result<(), Fault>, others: &[u8], table: Table, grid: Grid) -> Tally {
    Tally::default()
        .counted(first)
        .count_lines(others, |reader| direction(reader, table, grid))
}

// Then the lengths of the grid's slices, and the builder's answer.
fn with_grid(record: &mut FirstRecord, others: &[u8], lattice: &LatticeSlices) -> Tally {
    let mut cell_starts = [U32_BEFORE; 5767];
    let mut cell_ids = [U16_BEFORE; 60000];
    let mut triangle_starts = [U32_BEFORE; 4003];
    let mut triples = [U16_BEFORE; 72000];
    let mut slices = GridSlices {
        cell_starts: record.cut(&mut cell_starts),
        cell_ids: record.cut(&mut cell_ids),
        triangle_starts: record.cut(&mut triangle_starts),
        triples: record.cut(&mut triples),
    };
    let answer = slices.build(&lattice.mesh);
    let first = record.expect_built(answer);
    let grid = slices.grid(lattice.mesh.positions, answer.side);
    replay_directions(first, others, lattice.table(), grid)
}

// The first record begins with n, the lengths of the lattice's slices and the lattice's refusal. The mark is lent and not recorded.
fn with_lattice(record: &mut FirstRecord, others: &[u8]) -> Tally {
    let mut positions = [F64_BEFORE; 12006];
    let mut starts = [U32_BEFORE; 4003];
    let mut entries = [U16_BEFORE; 24000];
    let mut ids = [U16_BEFORE; 4620];
    let mut lattice = LatticeSlices {
        frequency: record.take(),
        mesh: MeshSlices {
            positions: record.cut(&mut positions),
            starts: record.cut(&mut starts),
            entries: record.cut(&mut entries),
        },
        ids: record.cut(&mut ids),
    };
    let mut lists_ascend = false;
    record.expect(lattice.write(&mut lists_ascend));
    with_grid(record, others, &lattice)
}

fn replay_records(text: &[u8]) -> Tally {
    let (line, others) = report::first_line(text);
    let mut record = FirstRecord {
        reader: Reader::new(line),
        outcome: Ok(()),
    };
    with_lattice(&mut record, others)
}

pub fn tally(files: &impl Files, name: &str) -> io::Result<Tally> {
    Tally::of_file(files, name, replay_records)
}
