// Queries of any grids and id tables, also such as some row refuses.
use crate::places::{F64_BEFORE, FACTOR, MARGIN, U16_BEFORE, U32_BEFORE};
use crate::slices::{Grid, GridSlices, Table, cut};
use c_api::{AnalyticAnswer, LocatedAnswer, NearestAnswer};
use records::{Fault, Reader};
use vector::Vector3;

// Three signs and three flags, 0 or 1 each; the refusal and the face.
pub fn face_choice(reader: &mut Reader) -> Result<(), Fault> {
    let i = reader.take()?;
    let j = reader.take()?;
    let k = reader.take()?;
    let first = reader.take()?;
    let second = reader.take()?;
    let third = reader.take()?;
    let answer = c_api::lattices::koshirga_choose_face(i, j, k, first, second, third);
    reader.expect(answer.refusal)?;
    reader.expect(answer.face)
}

// The refusal, three ids, three weights.
fn expect_analytic(reader: &mut Reader, answer: AnalyticAnswer) -> Result<(), Fault> {
    reader.expect(answer.refusal)?;
    reader.expect_list(&[answer.first, answer.second, answer.third])?;
    reader.expect_list(&[answer.u, answer.v, answer.w])
}

// The refusal, the id, the number of candidates, the distance, the index.
fn expect_nearest(reader: &mut Reader, answer: NearestAnswer) -> Result<(), Fault> {
    reader.expect(answer.refusal)?;
    reader.expect(answer.id)?;
    reader.expect(answer.candidates)?;
    reader.expect(answer.distance)?;
    reader.expect(answer.index as u64)
}

// The refusal, three ids, three weights, the least of them, the index.
fn expect_located(reader: &mut Reader, answer: LocatedAnswer) -> Result<(), Fault> {
    reader.expect(answer.refusal)?;
    reader.expect_list(&[answer.first, answer.second, answer.third])?;
    reader.expect_list(&[answer.u, answer.v, answer.w, answer.least])?;
    reader.expect(answer.index as u64)
}

// Location and nearest vertex by an id table.
pub fn analytic_answers(
    reader: &mut Reader,
    table: Table,
    direction: Vector3,
) -> Result<(), Fault> {
    let located = c_api::lattices::koshirga_analytic_locate(table.frequency, table.ids, direction);
    expect_analytic(reader, located)?;
    let nearest = c_api::lattices::koshirga_analytic_nearest(table.frequency, table.ids, direction);
    reader.expect(nearest.refusal)?;
    reader.expect(nearest.id)
}

// Nearest vertex and location on a grid.
pub fn grid_answers(reader: &mut Reader, grid: Grid, direction: Vector3) -> Result<(), Fault> {
    let nearest = c_api::grids::koshirga_grid_nearest(
        grid.positions,
        FACTOR,
        MARGIN,
        grid.side,
        grid.cell_starts,
        grid.cell_ids,
        grid.triangle_starts,
        direction,
    );
    expect_nearest(reader, nearest)?;
    let located = c_api::grids::koshirga_grid_locate(
        grid.positions,
        FACTOR,
        MARGIN,
        grid.side,
        grid.cell_starts,
        grid.cell_ids,
        grid.triangle_starts,
        grid.triples,
        direction,
    );
    expect_located(reader, located)
}

// The three components of a direction.
pub fn take_direction(reader: &mut Reader) -> Result<Vector3, Fault> {
    let x = reader.take()?;
    let y = reader.take()?;
    let z = reader.take()?;
    Ok(Vector3::new(x, y, z))
}

// n, the id table's length, the table and a direction; the answers.
pub fn analytic_query(reader: &mut Reader) -> Result<(), Fault> {
    let mut ids = [U16_BEFORE; 256];
    let frequency = reader.take()?;
    let ids = cut(reader, &mut ids)?;
    reader.take_list(ids)?;
    let direction = take_direction(reader)?;
    analytic_answers(reader, Table { frequency, ids }, direction)
}

// How many directions; each of them with its answers.
fn ask(reader: &mut Reader, grid: Grid) -> Result<(), Fault> {
    let count: u32 = reader.take()?;
    for _ in 0..count {
        let direction = take_direction(reader)?;
        grid_answers(reader, grid, direction)?;
    }
    Ok(())
}

// The lengths of positions, cell starts, cell ids, triangle starts and triples, the side, and these slices; then the directions.
pub fn grid_query(reader: &mut Reader) -> Result<(), Fault> {
    let mut positions = [F64_BEFORE; 128];
    let mut cell_starts = [U32_BEFORE; 128];
    let mut cell_ids = [U16_BEFORE; 1024];
    let mut triangle_starts = [U32_BEFORE; 64];
    let mut triples = [U16_BEFORE; 4096];
    let positions = cut(reader, &mut positions)?;
    let mut slices = GridSlices::cut(
        reader,
        &mut cell_starts,
        &mut cell_ids,
        &mut triangle_starts,
        &mut triples,
    )?;
    let side = reader.take()?;
    reader.take_list(positions)?;
    slices.take(reader)?;
    ask(reader, slices.grid(positions, side))
}
