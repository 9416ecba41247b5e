// The faces of a cell noted: each later cell is marked with its lowest face pair that passes, and the faces are counted by the way in
// which their candidates were sought.
ghost use Rattle.std.specs.Prelude.{◌≡◌, [], ◌∷◌, ◌+◌, ◌^◌, ◌≤◌, ◌<◌, length, set};
ghost use Rattle.laws.specs.Merging.{region};
ghost use Rattle.index.specs.Faces.{input, base};
ghost use Rattle.seek.specs.Candidates.{candidates, by_nodes, TalliedMore};
ghost use Rattle.seek.specs.Steps.{Hidden};
ghost use Rattle.triple_keys.specs.Keys.{Keyed};
ghost use Rattle.layout.specs.Tables.{face_count, Spaced, Standing};
ghost use Rattle.layout.specs.ByCell.{plain_rules};
ghost use Rattle.partially_shared.specs.Listing.{list_count, list_with};
ghost use Rattle.partially_shared.specs.Hits.{passing, face_hits, cell_hits, Marked, MarkedMore, Searching, Beside};

use crate::{Noted, Range};
use index::{Index, Places};
use layout::{Context, Layout, Tables};
use seek::Way;

// Cell b is listed behind n others, where there is room: as the first word of a pair, whose second word may be any. None where the list
// has not had room for all.
fn list_cell(work: &mut [u32], l: &Layout, b: usize, n: Option<usize>) -> Option<usize>
    requires spaced { Spaced l.now (length work.old) }
    requires b_bound { b < l.now.at.cell_count }
    ensures { (result ≡ list_count l.now n) × (work.new ≡ list_with l.now b n work.old) }
{
    let Some(n) = n else {
        return None;
    };
    if n >= l.words {
        return None;
    }
    let at = l.pairs + 2 * n;
    work[at] = b as u32;
    Some(n + 1)
}

// Cell b gets the mark of faces f and g: one more than f, for the marks are words of the lent slice, which has 0 for none.
fn mark(work: &mut [u32], l: &Layout, b: usize, f: usize, g: usize)
    requires spaced { Spaced l.now (length work.old) }
    requires b_bound { (b < l.now.at.cell_count) × (f < l.now.at.faces) × (g < l.now.at.faces) }
    ensures { work.new ≡ set (set work.old (l.now.marks + b) (f + 1)) (l.now.others + b) g }
{
    work[l.marks + b] = (f + 1) as u32;
    work[l.others + b] = g as u32;
}

// Faces f and g of different cells: the cell of g is marked with them, unless it is marked or their common nodes span no area.
fn note(cx: &Context, work: &mut [u32], f: usize, g: usize, r: Range) -> Range
    requires searching { Searching cx.now.layout work.old }
    requires f_lt_faces { (f < cx.now.layout.at.faces) × (g < cx.now.layout.at.faces) × (r.hi ≤ cx.now.layout.at.cell_count) }
    ensures marked_more { MarkedMore cx.now.layout (input cx.now.layout.at work.old) (passing (plain_rules cx.now.coords.now cx.now.tolerance) cx.now.layout (input cx.now.layout.at work.old) f (g ∷ [])) work.old work.new r result }
    ensures beside { Beside cx.now.layout.marks cx.now.layout work.old work.new × (result.hi ≤ cx.now.layout.at.cell_count) }
{
    let l = &cx.layout;
    let b = Tables { work, layout: l }.cell_of(g);
    let m = l.marks + b;
    if work[m] != 0 {
        return r;
    }
    if !common_nodes::spans(cx.coords, cx.tolerance, &Index::new(work, l.at), f, g) {
        return r;
    }
    mark(work, l, b, f, g);
    Range {
        lo: r.lo.min(b),
        hi: r.hi.max(b + 1),
        listed: list_cell(work, l, b, r.listed),
    }
}

// The n candidates of face f, which stand at `found`, in order.
fn note_found(cx: &Context, work: &mut [u32], f: usize, n: usize, r: Range) -> Range
    requires searching { Searching cx.now.layout work.old }
    requires f_lt_faces { (f < cx.now.layout.at.faces) × (r.hi ≤ cx.now.layout.at.cell_count) × (n ≡ length (candidates cx.now.layout.at (input cx.now.layout.at work.old) f)) × (region cx.now.layout.at.found n work.old ≡ candidates cx.now.layout.at (input cx.now.layout.at work.old) f) }
    ensures marked_more { MarkedMore cx.now.layout (input cx.now.layout.at work.old) (face_hits (plain_rules cx.now.coords.now cx.now.tolerance) cx.now.layout (input cx.now.layout.at work.old) f) work.old work.new r result }
    ensures beside { Beside cx.now.layout.marks cx.now.layout work.old work.new × (result.hi ≤ cx.now.layout.at.cell_count) }
{
    let found = cx.layout.at.found;
    let mut s = r;
    // by index: the same slice has the marks, which each turn writes
    for i in 0..n {
        let g = work[found + i] as usize;
        s = note(cx, work, f, g, s);
    }
    s
}

// Face f: its candidates, of which none is before `end`, are sought the way that is asked for, noted, and the face is counted.
fn note_face(
    cx: &Context,
    work: &mut [u32],
    by: Places,
    f: usize,
    end: usize,
    way: Way,
    r: Noted,
) -> Noted
    requires searching { Searching cx.now.layout work.old }
    requires f_lt_faces { (f < cx.now.layout.at.faces) × (r.range.hi ≤ cx.now.layout.at.cell_count) × Keyed cx.now.layout.at by (base cx.now.layout.at work.old) }
    requires end_le_faces { (end ≤ cx.now.layout.at.faces) × Hidden cx.now.layout.at (input cx.now.layout.at work.old) f end }
    requires nodes_bound { (r.tally.nodes < 2 ^ 40) × (r.tally.triples < 2 ^ 40) }
    ensures marked_more { MarkedMore cx.now.layout (input cx.now.layout.at work.old) (face_hits (plain_rules cx.now.coords.now cx.now.tolerance) cx.now.layout (input cx.now.layout.at work.old) f) work.old work.new r.range result.range }
    ensures beside { Beside cx.now.layout.at.found cx.now.layout work.old work.new × (result.range.hi ≤ cx.now.layout.at.cell_count) }
    ensures tallied_more { TalliedMore (by_nodes way) 1 r.tally result.tally }
{
    let found = pairs::candidates_of(work, cx.layout.at, by, f, end, way);
    Noted {
        range: note_found(cx, work, f, found.count, r.range),
        tally: found.tallied(r.tally),
    }
}

// The faces of cell c, in order, where no cell is marked; each is counted.
pub fn note_cell(
    cx: &Context,
    work: &mut [u32],
    by: Places,
    c: usize,
    way: Way,
    tally: seek::Tally,
) -> Noted
    requires standing { Standing cx.now.layout work.old }
    requires c_bound { (c < cx.now.layout.at.cell_count) × Keyed cx.now.layout.at by (base cx.now.layout.at work.old) }
    requires nodes_bound { (tally.nodes ≤ 2 ^ 20) × (tally.triples ≤ 2 ^ 20) }
    ensures marked { Marked cx.now.layout (input cx.now.layout.at work.old) (cell_hits (plain_rules cx.now.coords.now cx.now.tolerance) cx.now.layout (input cx.now.layout.at work.old) c) work.new result.range }
    ensures beside { Beside cx.now.layout.at.found cx.now.layout work.old work.new × (result.range.hi ≤ cx.now.layout.at.cell_count) }
    ensures tallied_more { TalliedMore (by_nodes way) (face_count cx.now.layout (input cx.now.layout.at work.old) c) tally result.tally }
{
    let layout = &cx.layout;
    let faces = Tables { work, layout }.faces(c);
    let none = Range {
        lo: layout.at.cell_count,
        hi: 0,
        listed: Some(0),
    };
    let mut s = Noted { range: none, tally };
    // by its two ends: a Range moves into the loop, and a turn asks for the end
    for f in faces.start..faces.end {
        s = note_face(cx, work, by, f, faces.end, way, s);
    }
    s
}
