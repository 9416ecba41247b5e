// Where a face's ring lies; the ring lookup and its companion.
#![tactic(auto)]

ghost use Rattle.std.specs.Prelude.{◌≡◌, IfOk, ◌≤◌, ◌<◌, length, drop};
ghost use Rattle.laws.specs.Refusals.{answer};
ghost use Rattle.refusals.specs.Told.{told_by};
ghost use Rattle.mesh.specs.Lent.{lent};
ghost use Rattle.mesh.specs.Model.{cells_from};
ghost use Rattle.mesh.specs.Rings.{phed_rings, rings_of};
ghost use Rattle.mesh.specs.Lookup.{lookup_refusal, ring_part};
ghost use Rattle.mesh.specs.CellsRest.{cells_rest};
ghost use Rattle.mesh.specs.Kinds.{kind_number};
ghost use Rattle.mesh.specs.Steps.{lead, cell_with, WellCell};
ghost use Rattle.faces.specs.Spans.{Sound, rings_left, SpanIn, RunSpan, CellSpan, CellFound};

use mesh::{Accepted, Cell, Cells, Kind, Model, RawCells, RingList, SEPARATOR};
use refusals::Refusal;
use std::ops::Range;

// Where a ring lies among its cell's ring words and, in a PHED, the place among the cell's own words where it begins. No Range in it, which
// can't be copied.
#[derive(Clone, Copy)]
pub struct Span {
    pub start: usize,
    pub end: usize,
    pub at: usize,
}

// A cell under its number, with the place where its words begin, a face of it by its place among the cell's, and how many ring words
// stand before the cell's.
#[derive(Clone, Copy)]
pub struct Place<'a> {
    pub number: usize,
    pub from: usize,
    pub cell: Cell<'a>,
    pub face: usize,
    pub start: usize,
}

// How many words the run has that begins at a place.
fn run_length(words: &[u32], at: usize) -> usize
    requires { at ≤ length words.now }
    ensures { result ≡ lead (drop at words.now) }
{
    let rest = &words[at..];
    rest.iter()
        .position(|word| *word == SEPARATOR)
        .unwrap_or(rest.len())
}

// Ring `face` of a PHED, run by run: `PhedRings` doesn't tell where a ring stands among the words.
fn phed_span(words: &[u32], face: usize) -> Span
    requires { face < length (phed_rings words.now) }
    ensures { RunSpan words.now face result }
{
    let mut left = face;
    let mut start = 0;
    let mut at = 0;
    // no `for`: a turn passes over a run, however long
    while at < words.len() {
        let n = run_length(words, at);
        if n < 3 {
            at += n + 1;
            continue;
        }
        if left == 0 {
            return Span {
                start,
                end: start + n,
                at,
            };
        }
        left -= 1;
        start += n;
        at += n + 1;
    }
    unreachable!()
}

// A ring of a cell that is no PHED: it stands nowhere among the cell's own words.
fn flat(ring: Range<usize>) -> Span
    ensures { (result.start ≡ ring.start) × (result.end ≡ ring.end) }
{
    Span {
        start: ring.start,
        end: ring.end,
        at: 0,
    }
}

// Ring `face` of a cell, by its kind.
pub fn cell_span(kind: Kind, words: &[u32], face: usize) -> Span
    requires well { WellCell (cell_with (kind_number kind) words.now) }
    requires there { face < length (rings_of (cell_with (kind_number kind) words.now)) }
    ensures { CellSpan (kind_number kind) words.now face result }
{
    match kind {
        Kind::Tet4 => flat(3 * face..3 * face + 3),
        Kind::Hex8 => flat(4 * face..4 * face + 4),
        Kind::Wedge6 if face < 2 => flat(3 * face..3 * face + 3),
        Kind::Wedge6 => flat(4 * face - 2..4 * face + 2),
        Kind::Phed => phed_span(words, face),
    }
}

// The cells of sound lists, for whoever has no accepted model: neither coordinates nor node numbers are judged.
pub fn sound_cells<'a>(kinds: &'a [u8], ends: &'a [u32], words: &'a [u32]) -> Cells<'a>
    requires { Sound kinds.now ends.now words.now }
    ensures rest { cells_rest result ≡ cells_from 0 kinds.now ends.now words.now }
    ensures kinds { result.left.kinds.now ≡ kinds.now }
    ensures words { result.left.words.now ≡ words.now }
{
    let left = RawCells {
        at: 0,
        kinds,
        ends,
        words,
    };
    Cells { left }
}

// The cell that holds a face.
pub fn find_cell<'a>(cells: Cells<'a>, face: usize) -> Place<'a>
    requires { face < length (rings_left cells) }
    ensures { CellFound cells.entry face result }
{
    let mut left = face;
    let mut start = 0;
    let mut from = 0;
    for (number, cell) in cells.enumerate() {
        let t = cell.tally();
        if left < t.faces {
            return Place {
                number,
                from,
                cell,
                face: left,
                start,
            };
        }
        left -= t.faces;
        start += t.words;
        from += cell.words.len();
    }
    unreachable!()
}

// Where a face's ring lies among all rings.
pub fn find_ring(cells: Cells, face: usize) -> Range<usize>
    requires { face < length (rings_left cells) }
    ensures { SpanIn (rings_left cells.entry) face result × (result.start < 4294967296) }
{
    let p = find_cell(cells, face);
    let s = cell_span(p.cell.kind, p.cell.words, p.face);
    p.start + s.start..p.start + s.end
}

// The model as accepted, or why the lookup of a face's ring in two lists is refused.
pub fn judge_lookup<'a>(
    model: &Model<'a>,
    raw: &[u32],
    welded: &[u32],
    face: usize,
) -> Result<Accepted<'a>, Refusal>
    ensures told { told_by (λ _. tt {0}) result ≡ answer (lookup_refusal (lent model.now) raw.now welded.now face) (tt {0}) }
    ensures same { IfOk result (λ a. lent a.model ≡ lent model.now) }
{
    let m = mesh::accept(model)?;
    if raw.len() != m.ring_words {
        return Err(Refusal::Room);
    }
    if welded.len() != m.ring_words {
        return Err(Refusal::Room);
    }
    if m.faces <= face {
        return Err(Refusal::Number);
    }
    Ok(m)
}

// The ring of a face as a part of the list named, empty at any refusal.
pub fn ring_lookup<'a>(
    model: &Model,
    raw: &'a [u32],
    welded: &'a [u32],
    which: RingList,
    face: usize,
) -> &'a [u32]
    ensures { result.now ≡ ring_part (lent model.now) raw.now welded.now which face }
{
    let Ok(m) = judge_lookup(model, raw, welded, face) else {
        return &raw[..0];
    };
    let s = find_ring(m.cells(), face);
    match which {
        RingList::Raw => &raw[s],
        RingList::Welded => &welded[s],
    }
}
