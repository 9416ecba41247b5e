// The findings of one kind, cell by cell: each kind in a pass of its own over the cells.
#![tactic(auto)]

ghost use Rattle.std.specs.Prelude.{◌≡◌, ◌+◌, ◌*◌, ◌^◌, ◌≤◌, ◌<◌, length};
ghost use Rattle.laws.specs.Lists.{each, up_from};
ghost use Rattle.index.specs.Faces.{input, base};
ghost use Rattle.seek.specs.Candidates.{by_nodes, Tallied};
ghost use Rattle.triple_keys.specs.Keys.{Keyed};
ghost use Rattle.records.specs.Keeping.{Kept};
ghost use Rattle.layout.specs.Tables.{Standing, Still};
ghost use Rattle.layout.specs.Views.{faced_in};
ghost use Rattle.layout.specs.ByCell.{plain_rules, bow_cell, over_cell, partly_cell};
ghost use Rattle.layout.specs.Kept.{KeptAny};
ghost use Rattle.all_cells.specs.Cells.{CellsIn, repeat_in, KeptEver};

use index::Places;
use layout::{Context, Tables};
use mesh::Model;
use records::{Kind, Record, Sink};
use seek::{Tally, Way};

// The bow-tie of cell c, where it is one.
fn keep_bow(t: &Tables, c: usize, sink: &mut Sink<'_>)
    requires c_bound { (c < t.now.layout.now.at.cell_count) × (c < 2 ^ 32) }
    requires few { sink.old.count < 2 ^ 57 }
    ensures kept_ever { KeptEver (bow_cell t.now.layout.now (faced_in t.now) c) sink.old sink.new }
    ensures upper_bound { sink.new.count ≤ sink.old.count + 1 }
{
    let b = t.layout.at.bows + c;
    if t.work[b] == 0 {
        return;
    }
    let r = Record {
        kind: Kind::BowTie as u8,
        first: c as u32,
        ..Record::default()
    };
    sink.keep(r, geometry::Point::default());
}

// Each kind's pass is a loop of its own: one over a closure would have to say of any closure what its calls leave in the slice, the tally
// and the sink, and say it again for each of the four.

// 1, bow-ties.
pub fn keep_bows(t: &Tables, sink: &mut Sink<'_>)
    requires cell_count_bound { t.now.layout.now.at.cell_count ≤ 2 ^ 18 }
    requires few { sink.old.count ≤ 2 ^ 50 }
    ensures kept_ever { KeptEver (each (bow_cell t.now.layout.now (faced_in t.now)) (up_from 0 t.now.layout.now.at.cell_count)) sink.old sink.new }
    ensures upper_bound { sink.new.count ≤ sink.old.count + 2 ^ 40 }
{
    for c in 0..t.layout.at.cell_count {
        keep_bow(t, c, sink);
    }
}

// 2, overfull faces.
pub fn keep_overs(cx: &Context, work: &[u32], by: Places, sink: &mut Sink<'_>)
    requires standing { Standing cx.now.layout work.now }
    requires keyed { Keyed cx.now.layout.at by (base cx.now.layout.at work.now) }
    requires few { sink.old.count ≤ 2 ^ 50 }
    ensures kept_any { KeptAny cx.now.coords.now (each (over_cell cx.now.layout (input cx.now.layout.at work.now)) (up_from 0 cx.now.layout.at.cell_count)) sink.old sink.new }
    ensures upper_bound { sink.new.count ≤ sink.old.count + 2 ^ 40 }
{
    for c in 0..cx.layout.at.cell_count {
        overfull::keep_overfull(cx, work, by, c, sink);
    }
}

// 3, partly shared pairs: every face is sought the way that is asked for, and counted. The pairs do not depend on the way.
pub fn keep_pairs(
    cx: &Context,
    work: &mut [u32],
    by: Places,
    way: Way,
    sink: &mut Sink<'_>,
) -> Tally
    requires standing { Standing cx.now.layout work.old }
    requires keyed { Keyed cx.now.layout.at by (base cx.now.layout.at work.old) }
    requires few { sink.old.count ≤ 2 ^ 50 }
    ensures kept { Kept (plain_rules cx.now.coords.now cx.now.tolerance) (each (partly_cell (plain_rules cx.now.coords.now cx.now.tolerance) cx.now.layout (input cx.now.layout.at work.old)) (up_from 0 cx.now.layout.at.cell_count)) sink.old sink.new }
    ensures findings_bound { (sink.new.count ≤ sink.old.count + 2 ^ 40) × Still cx.now.layout work.old work.new }
    ensures tallied { Tallied (by_nodes way) cx.now.layout.at.faces result }
{
    let mut tally = Tally::default();
    for c in 0..cx.layout.at.cell_count {
        tally = partially_shared::keep_partly(cx, work, by, c, way, tally, sink);
    }
    tally
}

// 4, repeated nodes.
pub fn keep_repeats(cx: &Context, model: &Model, work: &mut [u32], sink: &mut Sink<'_>)
    requires standing { Standing cx.now.layout work.old }
    requires cells { CellsIn cx.now.layout model.now.kinds.now model.now.ends.now model.now.words.now }
    requires few { sink.old.count ≤ 2 ^ 50 }
    ensures kept_any { KeptAny cx.now.coords.now (each (repeat_in cx.now.layout (input cx.now.layout.at work.old) model.now.kinds.now model.now.ends.now model.now.words.now) (up_from 0 cx.now.layout.at.cell_count)) sink.old sink.new }
    ensures upper_bound { (sink.new.count ≤ sink.old.count + 2 ^ 40) × Still cx.now.layout work.old work.new }
{
    for (c, cell) in model.raw_cells().enumerate() {
        repeated_nodes::keep_repeated(cx, cell.words, work, c, sink);
    }
}
