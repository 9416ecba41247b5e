// All tables of an accepted model, laid out and filled in the lent work slice.
#![tactic(auto)]

ghost use Rattle.std.specs.Prelude.{◌≡◌, map, ◌+◌, ◌*◌, ◌≤◌, ◌<◌, ◌^◌, length, take, replicate};
ghost use Rattle.std.proofs.lemmas.List.Edits.{sets};
ghost use Rattle.laws.specs.Lists.{each, up_from};
ghost use Rattle.laws.specs.Merging.{region, starts_of};
ghost use Rattle.geometry.specs.Coordinates.{node_count};
ghost use Rattle.mesh.specs.Lent.{lent};
ghost use Rattle.mesh.specs.Model.{cells_of};
ghost use Rattle.mesh.specs.Rings.{rings_of};
ghost use Rattle.mesh.specs.Acceptance.{work_needed};
ghost use Rattle.mesh.specs.Steps.{ring_total};
ghost use Rattle.faces.specs.Spans.{rings_in};
ghost use Rattle.welding.specs.Used.{welds_of};
ghost use Rattle.layout.specs.Tables.{Ringed};
ghost use Rattle.layout.specs.ByCell.{cell_bow, bit};
ghost use Rattle.layout.specs.Shown.{Built};
ghost use Rattle.node_sets.specs.Sets.{keys_of, sets_from, TablesFit};
ghost use Rattle.tables.specs.Owners.{owners_from};
ghost use Rattle.model_tables.specs.Planned.{Searched, Planned};

use layout::{Context, Layout};
use mesh::Accepted;

// The places of the tables of the pair search, from `bows` on, with the keys between them, and room for the second index before `found`;
// see `plan`.
fn plan_search(r: usize, f: usize, c: usize, n: usize, bows: usize) -> index::Places
    requires { (r < 2 ^ 32) × (f < 2 ^ 32) × (c < 2 ^ 32) × (n < 2 ^ 32) × (bows < 2 ^ 36) }
    ensures searched { Searched r f c n 0 bows result }
    ensures cells_bound { (result.cells < 2 ^ 40) × (result.index < 2 ^ 40) × (result.found < 2 ^ 40) }
{
    let cells = bows + c;
    let starts = cells + f + r;
    let sets = starts + (f + 1);
    let offsets = sets + r;
    let index = offsets + (n + 2);
    index::Places {
        faces: f,
        nodes: n,
        words: 0,
        cell_count: c,
        cells,
        bows,
        starts,
        sets,
        offsets,
        index,
        found: index + r + (f + 1 + r + (n + r + 3) + r),
    }
}

// The places of all tables, for r ring words, f faces, c cells, n nodes and m words, with no words of node sets yet.
fn plan(r: usize, f: usize, c: usize, n: usize, m: usize) -> Layout
    requires { (r < 2 ^ 32) × (f < 2 ^ 32) × (c < 2 ^ 32) × (n < 2 ^ 32) × (m < 2 ^ 32) }
    ensures { Planned r f c n m 0 result }
{
    let rows = n + r;
    let firsts = rows + (f + 1);
    let at = plan_search(r, f, c, n, firsts + (c + 1));
    let marks = at.found + f;
    let others = marks + c;
    let last = others + c;
    let pairs = last + n;
    Layout {
        at,
        total: r,
        words: m,
        weld: 0,
        rings: n,
        keys: at.cells + f,
        rows,
        firsts,
        second: at.index + r,
        marks,
        others,
        last,
        pairs,
        spare: pairs + 2 * m,
    }
}

// The welded numbers of all nodes go to the front.
fn put_weld(model: &Accepted, work: &mut [u32])
    requires { 3 * node_count model.now.model.coords.now ≤ length work.old }
    ensures { region 0 (node_count model.now.model.coords.now) work.new ≡ welds_of (lent model.now.model) }
{
    let m = model.model;
    let n = m.node_count();
    welding::weld_named(&m, work);
    work.copy_within(n + n..n + n + n, 0);
}

// The rings of all cells, where each ring starts, and the first face of each cell.
fn put_rings(model: &Accepted, work: &mut [u32], l: &Layout)
    requires rings_in_bounds { l.now.rings + ring_total (rings_in (lent model.now.model)) ≤ length work.old }
    requires rows_in_bounds { l.now.rows + (length (rings_in (lent model.now.model)) + 1) ≤ length work.old }
    requires firsts_in_bounds { l.now.firsts + (length model.now.model.kinds.now + 1) ≤ length work.old }
    ensures { work.new ≡ sets (sets (sets work.old l.now.rings (each (λ r. r) (rings_in (lent model.now.model)))) l.now.rows (starts_of 0 (rings_in (lent model.now.model)))) l.now.firsts (starts_of 0 (map rings_of (cells_of (lent model.now.model)))) }
{
    rings::put_cells(model, work, l.rings);
    tables::put_rows(model, work, l.rows);
    tables::put_firsts(model, work, l.firsts);
}

// The marks of bow-ties, and the cell of each face.
fn put_marks(model: &Accepted, work: &mut [u32], l: &Layout)
    requires ringed { Ringed l.now (take l.now.at.bows work.old) }
    requires bows_in_bounds { (l.now.at.bows + l.now.at.cell_count ≤ length work.old) × (l.now.at.nodes ≡ node_count model.now.model.coords.now) }
    requires cells_in_bounds { l.now.at.cells + length (rings_in (lent model.now.model)) ≤ length work.old }
    ensures { work.new ≡ sets (sets work.old l.now.at.bows (map (λ c. bit (cell_bow model.now.model.coords.now model.now.model.tolerance l.now (take l.now.at.bows work.old) c)) (up_from 0 l.now.at.cell_count))) l.now.at.cells (owners_from 0 (cells_of (lent model.now.model))) }
{
    let ctx = Context {
        coords: model.model.coords,
        tolerance: model.model.tolerance,
        layout: *l,
    };
    bow_cells::put_bows(&ctx, work);
    tables::put_owners(model, work, l.at.cells);
}

// The keys and node sets of all faces; answers how many words the sets have.
fn put_nodes(work: &mut [u32], l: &Layout) -> usize
    requires { TablesFit l.now work.old }
    ensures { (result ≡ length (each (λ s. s) (sets_from l.now (take l.now.at.bows work.old) 0 l.now.at.faces))) × (work.new ≡ sets (sets (sets work.old l.now.keys (keys_of l.now (take l.now.at.bows work.old) l.now.at.faces)) l.now.at.starts (starts_of 0 (sets_from l.now (take l.now.at.bows work.old) 0 l.now.at.faces))) l.now.at.sets (each (λ s. s) (sets_from l.now (take l.now.at.bows work.old) 0 l.now.at.faces))) }
{
    node_sets::put_keys(work, l);
    node_sets::put_sets(work, l)
}

// The marks of cells and the last nodes are zero.
fn clear_scratch(work: &mut [u32], l: &Layout)
    requires { (l.now.marks + l.now.at.cell_count ≤ length work.old) × (l.now.last + l.now.at.nodes ≤ length work.old) }
    ensures { work.new ≡ sets (sets work.old l.now.marks (replicate l.now.at.cell_count 0)) l.now.last (replicate l.now.at.nodes 0) }
{
    work[l.marks..l.marks + l.at.cell_count].fill(0);
    work[l.last..l.last + l.at.nodes].fill(0);
}

// Lays out and fills all tables of an accepted model.
pub fn build_tables(model: &Accepted, work: &mut [u32]) -> Layout
    requires { work_needed (lent model.now.model) ≤ length work.old }
    ensures { Built (lent model.now.model) result work.new }
{
    let m = model.model;
    let mut l = plan(
        model.ring_words,
        model.faces,
        m.kinds.len(),
        m.node_count(),
        m.words.len(),
    );
    put_weld(model, work);
    put_rings(model, work, &l);
    put_marks(model, work, &l);
    l.at.words = put_nodes(work, &l);
    clear_scratch(work, &l);
    l
}
