// What a packing writes: the lists, the positions, and the record of where they stand.
ghost use Rattle.std.specs.Prelude.{◌≡◌, ◌+◌, ◌≤◌, length};
ghost use Rattle.sequences.specs.Tabulate.{overwrite};
ghost use Rattle.packing.specs.Packing.{packed_words, packed_floats, overwrite_from, level_record};
ghost use Rattle.packing.specs.Room.{RecordFits, Packable};

use crate::{Buffers, LevelRecord, Taken};
use binary32::to_f32;
use grid::stored_grid::StoredGrid;
use mesh::vertex_count;

// Starts over the first places of a slice, element after element: a `copy_from_slice` would make the archive ask the C library for `memmove`.
#[tactic(auto, using(sequences::proofs::Tabulate::overwritten_none, sequences::proofs::Tabulate::overwritten_set, sequences::proofs::Tabulate::overwritten_all))]
fn copy_starts(starts: &[u32], words: &mut [u32])
    requires { length starts.now ≤ length words.old }
    ensures { words.new ≡ overwrite starts.now words.old }
{
    for (i, &start) in starts.iter().enumerate() {
        words[i] = start;
    }
}

// Ids over the first places of a slice, each widened.
#[tactic(auto, using(sequences::proofs::Tabulate::overwritten_none, sequences::proofs::Tabulate::overwritten_set, sequences::proofs::Tabulate::overwritten_all))]
fn widen_ids(ids: &[u16], words: &mut [u32])
    requires { length ids.now ≤ length words.old }
    ensures { words.new ≡ overwrite ids.now words.old }
{
    for (i, &id) in ids.iter().enumerate() {
        words[i] = u32::from(id);
    }
}

// Coordinates over the first places of a slice, each converted.
#[tactic(auto, using(sequences::proofs::Tabulate::overwritten_none, sequences::proofs::Tabulate::overwritten_set, sequences::proofs::Tabulate::overwritten_all))]
fn convert_positions(positions: &[f64], floats: &mut [f32])
    requires { length positions.now ≤ length floats.old }
    ensures { floats.new ≡ overwrite (packed_floats positions.now) floats.old }
{
    for (i, &coordinate) in positions.iter().enumerate() {
        floats[i] = to_f32(coordinate);
    }
}

// The four lists, one behind another, over the first places of a slice.
fn put_lists(grid: &StoredGrid, words: &mut [u32])
    requires { length grid.now.cell_starts + length grid.now.cell_ids + length grid.now.triangle_starts + length grid.now.triples ≤ length words.old }
    ensures { words.new ≡ overwrite (packed_words grid.now) words.old }
{
    copy_starts(grid.cell_starts, words);
    let ids_at = grid.cell_starts.len();
    widen_ids(grid.cell_ids, &mut words[ids_at..]);
    let starts_at = ids_at + grid.cell_ids.len();
    copy_starts(grid.triangle_starts, &mut words[starts_at..]);
    let triples_at = starts_at + grid.triangle_starts.len();
    widen_ids(grid.triples, &mut words[triples_at..]);
}

// Where the parts of a grid stand.
#[tactic(auto, unfolding(crate::specs::Packing::level_record))]
fn level_record(grid: &StoredGrid, positions: &[f64], taken: Taken) -> LevelRecord
    requires { RecordFits grid.now positions.now taken }
    ensures { result ≡ level_record grid.now positions.now taken }
{
    let cell_ids = taken.words + grid.cell_starts.len();
    let triangle_starts = cell_ids + grid.cell_ids.len();
    let triples = triangle_starts + grid.triangle_starts.len();
    LevelRecord {
        vertices: vertex_count(positions) as u32,
        side: grid.side as u32,
        cell_starts: taken.words as u32,
        cell_ids: cell_ids as u32,
        triangle_starts: triangle_starts as u32,
        triples: triples as u32,
        positions: taken.floats as u32,
    }
}

// Writes a grid behind what is taken.
#[tactic(auto, using(crate::proofs::Behind::length_packed), unfolding(crate::specs::Packing::overwrite_from))]
pub fn write_grid(grid: &StoredGrid, positions: &[f64], buffers: &mut Buffers) -> LevelRecord
    requires { Packable grid.now positions.now buffers.old.taken (length buffers.old.words.now) (length buffers.old.floats.now) }
    ensures words { buffers.new.words.now ≡ overwrite_from buffers.old.taken.words (packed_words grid.now) buffers.old.words.now }
    ensures floats { buffers.new.floats.now ≡ overwrite_from buffers.old.taken.floats (packed_floats positions.now) buffers.old.floats.now }
    ensures level { result ≡ level_record grid.now positions.now buffers.old.taken }
    ensures same_words { buffers.new.words.ghost_name ≡ buffers.old.words.ghost_name }
    ensures same_floats { buffers.new.floats.ghost_name ≡ buffers.old.floats.ghost_name }
    ensures same_taken { buffers.new.taken ≡ buffers.old.taken }
{
    let taken = buffers.taken;
    put_lists(grid, &mut buffers.words[taken.words..]);
    convert_positions(positions, &mut buffers.floats[taken.floats..]);
    level_record(grid, positions, taken)
}
