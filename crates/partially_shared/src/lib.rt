// Partly shared pairs, by first cell: each later cell is marked with its lowest face pair, and then the marked cells are written in order,
// found in the range that has them all or, where few are marked in a wide range, in a sorted list of them.
#![tactic(auto)]

ghost use Rattle.std.specs.Prelude.{Some, ◌≡◌, ℕ, ◌≢◌, [], ◌∷◌, ◌+◌, ◌-◌, ◌*◌, ◌^◌, ◌≤◌, ◌<◌, length, get_or, set};
ghost use Rattle.laws.specs.Lists.{each, up_from};
ghost use Rattle.index.specs.Faces.{input, base};
ghost use Rattle.seek.specs.Candidates.{by_nodes, TalliedMore};
ghost use Rattle.triple_keys.specs.Keys.{Keyed};
ghost use Rattle.records.specs.Keeping.{Kept};
ghost use Rattle.layout.specs.Tables.{face_count, Standing, Still};
ghost use Rattle.layout.specs.Kept.{KeptAny};
ghost use Rattle.layout.specs.ByCell.{plain_rules, partly_cell};
ghost use Rattle.partially_shared.specs.Listing.{Listed, Rising};
ghost use Rattle.partially_shared.specs.Hits.{Searching, told_by, mark_tells, MarkFits, MarksFit, Cleared};
ghost use Rattle.pair_sort.specs.Pairs.{pairs_at};

use index::{Index, Places};
use layout::Context;
use noting::note_cell;
use records::{Kind, Record, Sink};
use seek::Way;

mod noting; // the faces of a cell: candidates sought, later cells marked

// The cells from lo on, before hi, and how many cells are listed, where the list has room for all. No Range of the library: it is copied from
// turn to turn, with the list's number.
#[derive(Clone, Copy)]
pub struct Range {
    pub lo: usize,
    pub hi: usize,
    pub listed: Option<usize>,
}

// What the faces of a cell noted so far: the range of marked cells, and how many faces were sought each way.
#[derive(Clone, Copy)]
pub struct Noted {
    pub range: Range,
    pub tally: seek::Tally,
}

// The finding that the mark of cell b tells.
fn keep_pair(cx: &Context, work: &[u32], c: usize, b: usize, sink: &mut Sink<'_>)
    requires searching { Searching cx.now.layout work.now }
    requires c_bound { (c < cx.now.layout.at.cell_count) × (b < cx.now.layout.at.cell_count) × (get_or work.now (cx.now.layout.marks + b) 0 ≢ 0) × (get_or work.now (cx.now.layout.marks + b) 0 ≤ cx.now.layout.at.faces) × (get_or work.now (cx.now.layout.others + b) 0 < cx.now.layout.at.faces) }
    requires few { sink.old.count < 2 ^ 57 }
    ensures { KeptAny cx.now.coords.now (told_by cx.now.layout (input cx.now.layout.at work.now) c b (get_or work.now (cx.now.layout.marks + b) 0) (get_or work.now (cx.now.layout.others + b) 0) ∷ []) sink.old sink.new }
{
    let l = &cx.layout;
    let f = work[l.marks + b] as usize - 1;
    let g = work[l.others + b] as usize;
    let s = common_nodes::shared_of(cx.coords, &Index::new(work, l.at), f, g);
    let r = Record {
        kind: Kind::PartlyShared as u8,
        first: c as u32,
        second: b as u32,
        a: f as u32,
        b: g as u32,
        count: s.count as u32,
    };
    sink.keep(r, s.centre);
}

// The finding of cell b where it is marked; its mark becomes zero.
fn keep_marked(cx: &Context, work: &mut [u32], c: usize, b: usize, sink: &mut Sink<'_>)
    requires searching { Searching cx.now.layout work.old }
    requires c_bound { (c < cx.now.layout.at.cell_count) × (b < cx.now.layout.at.cell_count) × MarkFits cx.now.layout work.old b }
    requires few { sink.old.count < 2 ^ 57 }
    ensures kept_any { KeptAny cx.now.coords.now (mark_tells cx.now.layout (input cx.now.layout.at work.old) work.old c b) sink.old sink.new }
    ensures work_after { (work.new ≡ set work.old (cx.now.layout.marks + b) 0) × (sink.new.count ≤ sink.old.count + 1) }
{
    let m = cx.layout.marks + b;
    if work[m] == 0 {
        return;
    }
    keep_pair(cx, work, c, b, sink);
    work[m] = 0;
}

// The findings of the marked cells of a range, in order; all their marks become zero.
fn keep_range(cx: &Context, work: &mut [u32], c: usize, r: Range, sink: &mut Sink<'_>)
    requires searching { Searching cx.now.layout work.old }
    requires c_bound { (c < cx.now.layout.at.cell_count) × (r.hi ≤ cx.now.layout.at.cell_count) × MarksFit cx.now.layout work.old }
    requires few { sink.old.count ≤ 2 ^ 56 }
    ensures kept_any { KeptAny cx.now.coords.now (each (mark_tells cx.now.layout (input cx.now.layout.at work.old) work.old c) (up_from r.lo (r.hi - r.lo))) sink.old sink.new }
    ensures cleared { Cleared cx.now.layout work.old r.lo r.hi work.new × (sink.new.count ≤ sink.old.count + 2 ^ 18) }
{
    for b in r.lo..r.hi {
        keep_marked(cx, work, c, b, sink);
    }
}

// The findings of the marked cells, which are among `count` listed ones in order; all marks become zero.
fn keep_sorted(cx: &Context, work: &mut [u32], c: usize, count: usize, sink: &mut Sink<'_>)
    requires searching { Searching cx.now.layout work.old }
    requires c_bound { (c < cx.now.layout.at.cell_count) × (count ≤ cx.now.layout.words) × MarksFit cx.now.layout work.old × Listed cx.now.layout work.old count × Rising (pairs_at cx.now.layout.pairs count work.old) }
    requires few { sink.old.count ≤ 2 ^ 56 }
    ensures kept_any { KeptAny cx.now.coords.now (each (mark_tells cx.now.layout (input cx.now.layout.at work.old) work.old c) (up_from 0 cx.now.layout.at.cell_count)) sink.old sink.new }
    ensures cleared { Cleared cx.now.layout work.old 0 cx.now.layout.at.cell_count work.new × (sink.new.count ≤ sink.old.count + 2 ^ 18) }
{
    let pairs = cx.layout.pairs;
    let mut next = 0;
    // by index: the same slice has the marks, which each turn writes
    for i in 0..count {
        let b = work[pairs + 2 * i] as usize;
        if b < next {
            continue;
        }
        keep_marked(cx, work, c, b, sink);
        next = b + 1;
    }
}

// The same where they are listed in any order: the list is sorted first.
fn keep_listed(cx: &Context, work: &mut [u32], c: usize, count: usize, sink: &mut Sink<'_>)
    requires searching { Searching cx.now.layout work.old }
    requires c_bound { (c < cx.now.layout.at.cell_count) × (count ≤ cx.now.layout.words) × MarksFit cx.now.layout work.old × Listed cx.now.layout work.old count }
    requires few { sink.old.count ≤ 2 ^ 56 }
    ensures kept_any { KeptAny cx.now.coords.now (each (mark_tells cx.now.layout (input cx.now.layout.at work.old) work.old c) (up_from 0 cx.now.layout.at.cell_count)) sink.old sink.new }
    ensures cleared { Cleared cx.now.layout work.old 0 cx.now.layout.at.cell_count work.new × (sink.new.count ≤ sink.old.count + 2 ^ 18) }
{
    let l = &cx.layout;
    pair_sort::sort_pairs(work, l.pairs, l.spare, count);
    keep_sorted(cx, work, c, count, sink);
}

// How many cells the list has, where it has all marked cells and is short against the range: it is then gone through.
fn by_list(r: Range) -> Option<usize>
    ensures { (n : ℕ) → result ≡ Some n → r.listed ≡ Some n }
{
    let short = r.hi.saturating_sub(r.lo) / 16;
    r.listed.filter(|&n| n < short)
}

// The partly shared pairs whose first cell is c, its faces sought the way that is asked for and counted. The pairs do not depend on the way.
pub fn keep_partly(
    cx: &Context,
    work: &mut [u32],
    by: Places,
    c: usize,
    way: Way,
    tally: seek::Tally,
    sink: &mut Sink<'_>,
) -> seek::Tally
    requires standing { Standing cx.now.layout work.old }
    requires c_bound { (c < cx.now.layout.at.cell_count) × Keyed cx.now.layout.at by (base cx.now.layout.at work.old) }
    requires few { (sink.old.count ≤ 2 ^ 56) × (tally.nodes ≤ 2 ^ 20) × (tally.triples ≤ 2 ^ 20) }
    ensures kept { Kept (plain_rules cx.now.coords.now cx.now.tolerance) (partly_cell (plain_rules cx.now.coords.now cx.now.tolerance) cx.now.layout (input cx.now.layout.at work.old) c) sink.old sink.new }
    ensures findings_bound { (sink.new.count ≤ sink.old.count + 2 ^ 18) × Still cx.now.layout work.old work.new }
    ensures tallied_more { TalliedMore (by_nodes way) (face_count cx.now.layout (input cx.now.layout.at work.old) c) tally result }
{
    let s = note_cell(cx, work, by, c, way, tally);
    let r = s.range;
    if let Some(count) = by_list(r) {
        keep_listed(cx, work, c, count, sink);
        return s.tally;
    }
    keep_range(cx, work, c, r, sink);
    s.tally
}
