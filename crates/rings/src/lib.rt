// The rings of cells, put one after the other into a lent list. Each function answers the place behind what it put, from which the next goes
// on: the tables of the check are put by one such step after the other in one slice, and each promise is a run of stores in it (`WordsPut`).
#![tactic(auto)]

ghost use Rattle.std.specs.Prelude.{All, ◌+◌, ◌≤◌, ◌<◌, length, get_or, map};
ghost use Rattle.laws.specs.Lists.{each};
ghost use Rattle.mesh.specs.Model.{cells_of};
ghost use Rattle.mesh.specs.Lent.{lent};
ghost use Rattle.mesh.specs.Rings.{at as placed, phed_rings, rings_of};
ghost use Rattle.mesh.specs.CellsRest.{cell_raw};
ghost use Rattle.mesh.specs.Steps.{ring_total};
ghost use Rattle.rings.specs.Put.{WordsPut, RingsPut};

use mesh::{Accepted, Cell, Kind, PhedRings};

// The tetrahedron's rings of local places.
const TET: [[u8; 3]; 4] = [[0, 1, 3], [1, 2, 3], [2, 0, 3], [0, 2, 1]];

// The hexahedron's six rings of four local places.
pub const HEX: [[u8; 4]; 6] = [
    [0, 3, 2, 1],
    [4, 5, 6, 7],
    [0, 1, 5, 4],
    [2, 3, 7, 6],
    [1, 2, 6, 5],
    [3, 0, 4, 7],
];

// The wedge's: two of three places, then three of four.
const WEDGE_ENDS: [[u8; 3]; 2] = [[0, 2, 1], [3, 4, 5]];

const WEDGE_SIDES: [[u8; 4]; 3] = [[0, 1, 4, 3], [1, 2, 5, 4], [2, 0, 3, 5]];

// The words at a ring's local places; answers the place behind them.
fn put_ring<const N: usize>(words: &[u32], places: &[u8; N], out: &mut [u32], at: usize) -> usize
    requires { All (λ p. p < length words.now) places.now × (at + length places.now ≤ length out.old) }
    ensures { WordsPut (map (λ p. get_or words.now p 0) places.now) out.old out.new at result }
{
    for (i, place) in places.iter().enumerate() {
        out[at + i] = words[*place as usize];
    }
    at + N
}

// The rings of a table; answers the place behind them.
fn put_rings<const N: usize, const M: usize>(
    words: &[u32],
    table: [[u8; N]; M],
    out: &mut [u32],
    at: usize,
) -> usize
    requires { All (λ r. All (λ p. p < length words.now) r) table × (at + ring_total (placed words.now table) ≤ length out.old) }
    ensures { RingsPut (placed words.now table.entry) out.old out.new at result }
{
    let mut k = at;
    for ring in &table {
        k = put_ring(words, ring, out, k);
    }
    k
}

// Words as they are; answers the place behind them.
// One by one: `copy_from_slice` calls memcpy, and for rings of three words that takes 1.2 times as long.
fn put_words(words: &[u32], out: &mut [u32], at: usize) -> usize
    requires { at + length words.now ≤ length out.old }
    ensures { WordsPut words.now out.old out.new at result }
{
    for (i, word) in words.iter().enumerate() {
        out[at + i] = *word;
    }
    at + words.len()
}

// A PHED's rings; answers the place behind them.
fn put_phed(words: &[u32], out: &mut [u32], at: usize) -> usize
    requires { at + ring_total (phed_rings words.now) ≤ length out.old }
    ensures { RingsPut (phed_rings words.now) out.old out.new at result }
{
    let mut k = at;
    for ring in PhedRings::new(words) {
        k = put_words(ring, out, k);
    }
    k
}

// A cell's rings; answers the place behind them.
pub fn put_cell(cell: &Cell, out: &mut [u32], at: usize) -> usize
    requires { at + ring_total (rings_of (cell_raw cell.now)) ≤ length out.old }
    ensures { RingsPut (rings_of (cell_raw cell.now)) out.old out.new at result }
{
    let words = cell.words;
    match cell.kind {
        Kind::Tet4 => put_rings(words, TET, out, at),
        Kind::Hex8 => put_rings(words, HEX, out, at),
        Kind::Wedge6 => {
            let k = put_rings(words, WEDGE_ENDS, out, at);
            put_rings(words, WEDGE_SIDES, out, k)
        }
        Kind::Phed => put_phed(words, out, at),
    }
}

// The rings of all cells; answers the place behind them.
pub fn put_cells(model: &Accepted, out: &mut [u32], at: usize) -> usize
    requires { at + ring_total (each rings_of (cells_of (lent model.now.model))) ≤ length out.old }
    ensures { RingsPut (each rings_of (cells_of (lent model.now.model))) out.old out.new at result }
{
    let mut k = at;
    for cell in model.cells() {
        k = put_cell(&cell, out, k);
    }
    k
}
