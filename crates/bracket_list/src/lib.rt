// Lattices as bracket lists, in bytes. Each function whose name begins with `put_` appends to the lines.
#![tactic(auto)]

ghost use Rattle.std.specs.Prelude.{◌≡◌, ◌≤◌, map};
ghost use Rattle.std.specs.List.{join_with_byte};
ghost use Rattle.mesh.specs.Mesh.{count, neighbours};
ghost use Rattle.lattice.specs.Lattice.{lattice_mesh};
ghost use Rattle.bracket_list.specs.Text.{space};
ghost use Rattle.bracket_list.specs.LatticeList.{head_line, vertex_line, vertex_lines, walk_line, mesh_listing, requested_frequency, lattice_listing};
ghost use Rattle.bracket_list.specs.Output.{HasRoom, Written};

mod lattice_lists;
pub mod program;

use arrayvec::ArrayVec;
use itoa::{Buffer, Integer};
use lattice_lists::LatticeLists;

// What the program prints: lines in a fixed room, where every listing fits.
pub type Lines = ArrayVec<u8, 16384>;

fn put_text(lines: &mut Lines, text: &[u8])
    requires room { HasRoom lines.old text.now }
    ensures { Written lines.old text.now lines.new }
{
    lines.try_extend_from_slice(text).unwrap();
}

// A number in decimal digits, no leading zero.
// No `write!`: it may fail, and does not promise that it does not where there is room.
fn put_decimal<N: Integer>(lines: &mut Lines, n: N)
    requires room { HasRoom lines.old (N.text n) }
    ensures { Written lines.old (N.text n) lines.new }
{
    put_text(lines, Buffer::new().format(n).as_bytes());
}

// Numbers with one space between them.
fn put_spaced<N: Integer>(lines: &mut Lines, numbers: &[N])
    requires room { HasRoom lines.old (join_with_byte space (map N.text numbers.now)) }
    ensures { Written lines.old (join_with_byte space (map N.text numbers.now)) lines.new }
{
    if let [first, rest @ ..] = numbers {
        put_decimal(lines, *first);
        for n in rest {
            lines.push(b' ');
            put_decimal(lines, *n);
        }
    }
}

// The line of a vertex: its id and its neighbours.
#[tactic(auto, using(crate::proofs::Lines::vertex_size, crate::proofs::Numerals::decimal_length))]
fn put_vertex(lines: &mut Lines, vertex: u32, list: &[u16])
    requires room { HasRoom lines.old (vertex_line vertex list.now) }
    ensures { Written lines.old (vertex_line vertex list.now) lines.new }
{
    put_text(lines, b"(v ");
    put_decimal(lines, vertex);
    put_text(lines, b" (");
    put_spaced(lines, list);
    put_text(lines, b"))\n");
}

// The lines of all vertices.
fn put_vertices(lines: &mut Lines, rows: &LatticeLists)
    requires room { HasRoom lines.old (let m = lattice_mesh rows.now.frequency in vertex_lines (count m) (neighbours m)) }
    ensures { Written lines.old (let m = lattice_mesh rows.now.frequency in vertex_lines (count m) (neighbours m)) lines.new }
{
    for v in 0..rows.count() {
        put_vertex(lines, v as u32, rows.neighbours(v));
    }
}

// The line of the frequency and the counts.
#[tactic(auto, using(crate::proofs::Lines::head_size, crate::proofs::Numerals::decimal_length))]
fn put_head(lines: &mut Lines, frequency: u32, vertices: u32, entries: u32)
    requires room { HasRoom lines.old (head_line frequency vertices entries) }
    ensures { Written lines.old (head_line frequency vertices entries) lines.new }
{
    put_text(lines, b"(lattice (frequency ");
    put_decimal(lines, frequency);
    put_text(lines, b") (vertices ");
    put_decimal(lines, vertices);
    put_text(lines, b") (entries ");
    put_decimal(lines, entries);
    put_text(lines, b"))\n");
}

// The line of the old ids in walk order.
#[tactic(auto, using(crate::proofs::Lines::walk_size))]
fn put_walk(lines: &mut Lines, queue: &[u32])
    requires room { HasRoom lines.old (walk_line queue.now) }
    ensures { Written lines.old (walk_line queue.now) lines.new }
{
    put_text(lines, b"(walk (");
    put_spaced(lines, queue);
    put_text(lines, b"))\n");
}

// Walks a lattice, by its neighbour lists, and lists it.
fn put_mesh(lines: &mut Lines, rows: &LatticeLists)
    requires room { HasRoom lines.old (mesh_listing rows.now.frequency (lattice_mesh rows.now.frequency)) }
    ensures { Written lines.old (mesh_listing rows.now.frequency (lattice_mesh rows.now.frequency)) lines.new }
{
    let vertices = rows.count();
    let mut order = [0u32; 162];
    let mut queue = [0u32; 162];
    let reach = walk::breadth_first(
        rows.starts,
        rows.entries,
        &mut order[..vertices],
        &mut queue,
    );
    put_head(
        lines,
        rows.frequency,
        vertices as u32,
        rows.entries.len() as u32,
    );
    put_vertices(lines, rows);
    put_walk(lines, &queue[..reach.vertices]);
}

// The frequency that is asked for; none where the input is no such request.
#[tactic(auto, unfolding(crate::specs::LatticeList::requested_frequency))]
fn requested(input: &[u8]) -> Option<u32>
    ensures { result ≡ requested_frequency input.now }
{
    match input {
        b"(lattice 1)\n" => Some(1),
        b"(lattice 2)\n" => Some(2),
        b"(lattice 3)\n" => Some(3),
        b"(lattice 4)\n" => Some(4),
        _ => None,
    }
}

// Makes the lattice of a frequency, and lists it.
fn put_lattice(lines: &mut Lines, frequency: u32)
    requires least { 1 ≤ frequency }
    requires greatest { frequency ≤ 4 }
    requires room { HasRoom lines.old (mesh_listing frequency (lattice_mesh frequency)) }
    ensures { Written lines.old (mesh_listing frequency (lattice_mesh frequency)) lines.new }
{
    let mut positions = [0.0f64; 486];
    let mut starts = [0u32; 163];
    let mut entries = [0u16; 960];
    let mut lists_ascend = false;
    let mut ids = [0u16; 300];
    lattice::lattice_geometry(
        frequency,
        &mut positions,
        &mut starts,
        &mut entries,
        &mut lists_ascend,
        &mut ids,
    )
    .unwrap();
    let n = frequency as usize;
    let rows = LatticeLists {
        frequency,
        starts: &starts[..10 * (n * n) + 3],
        entries: &entries[..60 * (n * n)],
    };
    put_mesh(lines, &rows);
}

// What the program `lattice-list` prints for what it read.
#[tactic(auto, unfolding(crate::specs::LatticeList::lattice_listing))]
pub fn lattice_list(input: &[u8]) -> Lines
    ensures { result.items ≡ lattice_listing input.now }
{
    let mut lines = Lines::new();
    match requested(input) {
        Some(frequency) => put_lattice(&mut lines, frequency),
        None => put_text(&mut lines, b"(refused 1)\n"),
    }
    lines
}
