// Buffers for the graphics card: a grid and its positions, rounded to binary32, behind what is taken of two slices.
ghost use Rattle.std.specs.Prelude.{◌≡◌};
ghost use Rattle.grid.specs.Settings.{settings_with};
ghost use Rattle.grid.specs.Stored.{lent_grid};
ghost use Rattle.packing.specs.Packing.{pack, taken_with};
ghost use Rattle.c_api.specs.Lent.{pack_left, pack_left_of};

use c_api::PackAnswer;

// The grid is written behind the taken words, and its positions behind the taken floats; the answer has its level record. After a refusal both slices are as they were.
#[unsafe(no_mangle)]
pub extern "C" fn koshirga_pack(
    positions: &[f64],
    factor: f64,
    margin: u32,
    side: u32,
    cell_starts: &[u32],
    cell_ids: &[u16],
    triangle_starts: &[u32],
    triples: &[u16],
    words: &mut [u32],
    words_taken: usize,
    floats: &mut [f32],
    floats_taken: usize,
) -> PackAnswer
    ensures { pack_left result words.new floats.new ≡ pack_left_of (pack (lent_grid (settings_with factor margin) side cell_starts.now cell_ids.now triangle_starts.now triples.now) positions.now (taken_with words_taken floats_taken) words.old floats.old) }
{
    c_api::buffers::koshirga_pack(
        positions,
        factor,
        margin,
        side,
        cell_starts,
        cell_ids,
        triangle_starts,
        triples,
        words,
        words_taken,
        floats,
        floats_taken,
    )
}
