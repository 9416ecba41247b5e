// The repeated nodes of one cell: listed in the scratch of the layout, and written as findings.
#![tactic(auto)]

ghost use Rattle.std.specs.Prelude.{◌≡◌, [], ◌∷◌, map, ◌+◌, ◌*◌, ◌^◌, ◌≤◌, ◌<◌, length};
ghost use Rattle.laws.specs.Merging.{AllBelow};
ghost use Rattle.geometry.specs.Coordinates.{node_count};
ghost use Rattle.pair_sort.specs.Pairs.{pairs_in};
ghost use Rattle.mesh.specs.Rings.{nodes_in};
ghost use Rattle.findings.specs.Findings.{repeated};
ghost use Rattle.index.specs.Faces.{input};
ghost use Rattle.layout.specs.Tables.{Standing, Still};
ghost use Rattle.layout.specs.ByCell.{repeat_cell};
ghost use Rattle.repeated_nodes.specs.OfCell.{of_cell};
ghost use Rattle.layout.specs.Kept.{KeptAny};

use layout::Context;
use records::{Kind, Record, Sink};

// The finding of nodes a and b of cell c.
fn keep_nodes(coords: &[f64], c: usize, a: u32, b: u32, sink: &mut Sink<'_>)
    requires c_bound { (c < 2 ^ 32) × (a < node_count coords.now) × (b < node_count coords.now) }
    requires few { sink.old.count < 2 ^ 57 }
    ensures { KeptAny coords.now (repeated c a b ∷ []) sink.old sink.new }
{
    let first = geometry::point3(coords, a);
    let second = geometry::point3(coords, b);
    let middle = geometry::midpoint(first, second);
    let r = Record {
        kind: Kind::Repeated as u8,
        first: c as u32,
        second: c as u32,
        a,
        b,
        count: 2,
    };
    sink.keep(r, middle);
}

// The findings of pairs of nodes of cell c, which stand as two words each.
fn keep_pairs(coords: &[f64], pairs: &[u32], c: usize, sink: &mut Sink<'_>)
    requires c_bound { (c < 2 ^ 32) × AllBelow (node_count coords.now) pairs.now }
    requires few { sink.old.count + length pairs.now ≤ 2 ^ 57 }
    ensures { KeptAny coords.now (map (of_cell c) (pairs_in pairs.now)) sink.old sink.new }
{
    for pair in pairs.chunks_exact(2) {
        keep_nodes(coords, c, pair[0], pair[1], sink);
    }
}

// The repeated nodes of cell c, which has these words.
pub fn keep_repeated(cx: &Context, words: &[u32], work: &mut [u32], c: usize, sink: &mut Sink<'_>)
    requires standing { Standing cx.now.layout work.old }
    requires c_bound { (c < cx.now.layout.at.cell_count) × (length words.now ≤ cx.now.layout.words) × AllBelow cx.now.layout.at.nodes (nodes_in words.now) }
    requires few { sink.old.count ≤ 2 ^ 56 }
    ensures kept_any { KeptAny cx.now.coords.now (repeat_cell cx.now.layout (input cx.now.layout.at work.old) c words.now) sink.old sink.new }
    ensures upper_bound { (sink.new.count ≤ sink.old.count + 2 ^ 20) × Still cx.now.layout work.old work.new }
{
    let l = cx.layout;
    // field by field: crate repeats knows no layout, and the layout no repeats, so neither has a From
    let scratch = repeats::Regions {
        nodes: l.at.nodes,
        weld: l.weld,
        last: l.last,
        pairs: l.pairs,
        spare: l.spare,
    };
    let m = repeats::list_repeats(words, work, scratch);
    keep_pairs(cx.coords, &work[l.pairs..l.pairs + 2 * m], c, sink);
}
