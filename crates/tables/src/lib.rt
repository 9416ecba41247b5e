// Tables of an accepted model's faces, each written by one pass over the cells: where each ring starts, the first face of each cell, and the cell of each face.
#![tactic(auto)]

ghost use Rattle.std.specs.Prelude.{◌≡◌, map, ◌+◌, ◌≤◌, length, replicate};
ghost use Rattle.std.proofs.lemmas.List.Edits.{sets};
ghost use Rattle.laws.specs.Merging.{starts_of};
ghost use Rattle.mesh.specs.Model.{cells_of};
ghost use Rattle.mesh.specs.Lent.{lent};
ghost use Rattle.mesh.specs.Rings.{phed_rings, rings_of};
ghost use Rattle.mesh.specs.CellsRest.{cell_raw};
ghost use Rattle.rings.specs.Put.{WordsPut};
ghost use Rattle.faces.specs.Spans.{rings_in};
ghost use Rattle.tables.specs.Owners.{owners_from};

use mesh::{Accepted, Cell, Kind, PhedRings};

// n times the word v; answers the place behind them, as each function here does, in the words of crate rings (`WordsPut`).
fn put_copies(n: usize, v: u32, work: &mut [u32], at: usize) -> usize
    requires { at + n ≤ length work.old }
    ensures { WordsPut (replicate n v) work.old work.new at result }
{
    work[at..at + n].fill(v);
    at + n
}

// The lengths of a PHED's rings; answers the place behind them.
fn phed_lengths(cell: &Cell, work: &mut [u32], at: usize) -> usize
    requires { at + length (phed_rings cell.now.words.now) ≤ length work.old }
    ensures { WordsPut (map length (phed_rings cell.now.words.now)) work.old work.new at result }
{
    // k goes up by hand: it is the answer
    let mut k = at;
    for ring in PhedRings::new(cell.words) {
        work[k] = ring.len() as u32;
        k += 1;
    }
    k
}

// The lengths of a cell's rings, by its kind; answers the place behind them.
fn cell_lengths(cell: &Cell, work: &mut [u32], at: usize) -> usize
    requires { at + length (rings_of (cell_raw cell.now)) ≤ length work.old }
    ensures { WordsPut (map length (rings_of (cell_raw cell.now))) work.old work.new at result }
{
    match cell.kind {
        Kind::Tet4 => put_copies(4, 3, work, at),
        Kind::Hex8 => put_copies(6, 4, work, at),
        Kind::Wedge6 => {
            let k = put_copies(2, 3, work, at);
            put_copies(3, 4, work, k)
        }
        Kind::Phed => phed_lengths(cell, work, at),
    }
}

// The lengths of all rings; answers the place behind them.
fn put_lengths(model: &Accepted, work: &mut [u32], at: usize) -> usize
    requires { at + length (rings_in (lent model.now.model)) ≤ length work.old }
    ensures { WordsPut (map length (rings_in (lent model.now.model))) work.old work.new at result }
{
    let mut k = at;
    for cell in model.cells() {
        k = cell_lengths(&cell, work, k);
    }
    k
}

// Where each ring starts among all ring words, and where the last ends: the lengths, summed up.
pub fn put_rows(model: &Accepted, work: &mut [u32], at: usize)
    requires { at + (length (rings_in (lent model.now.model)) + 1) ≤ length work.old }
    ensures { work.new ≡ sets work.old at (starts_of 0 (rings_in (lent model.now.model))) }
{
    work[at] = 0;
    let first = at + 1;
    let end = put_lengths(model, work, first);
    counting::run_up(work, first, end - first);
}

// The number of the first face of each cell, and of all faces.
pub fn put_firsts(model: &Accepted, work: &mut [u32], at: usize)
    requires { at + (length model.now.model.kinds.now + 1) ≤ length work.old }
    ensures { work.new ≡ sets work.old at (starts_of 0 (map rings_of (cells_of (lent model.now.model)))) }
{
    let mut n = 0;
    for (i, cell) in model.cells().enumerate() {
        work[at + i] = n as u32;
        n += cell.tally().faces;
    }
    work[at + model.model.kinds.len()] = n as u32;
}

// The cell of each face: a cell's number once for each of its rings.
pub fn put_owners(model: &Accepted, work: &mut [u32], at: usize)
    requires { at + length (rings_in (lent model.now.model)) ≤ length work.old }
    ensures { work.new ≡ sets work.old at (owners_from 0 (cells_of (lent model.now.model))) }
{
    let mut k = at;
    for (number, cell) in model.cells().enumerate() {
        k = put_copies(cell.tally().faces, number as u32, work, k);
    }
}
