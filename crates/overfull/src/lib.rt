// The overfull faces of a cell, read off the tables and the index of the faces by node.
#![tactic(auto)]

ghost use Rattle.std.specs.Prelude.{◌≡◌, true, ◌+◌, ◌*◌, ◌^◌, ◌≤◌, ◌<◌, length};
ghost use Rattle.laws.specs.Lists.{keep, elem};
ghost use Rattle.index.specs.Faces.{input, base};
ghost use Rattle.index.specs.Read.{set_of};
ghost use Rattle.triple_keys.specs.Keys.{Keyed};
ghost use Rattle.layout.specs.Tables.{Standing};
ghost use Rattle.layout.specs.Views.{faced_in};
ghost use Rattle.layout.specs.ByCell.{over_face, over_cell};
ghost use Rattle.overfull.specs.Alike.{same_as, alike, start, noted, tallied, Listed, FaceOf};
ghost use Rattle.layout.specs.Kept.{KeptAny};

use index::{Index, Places};
use layout::{Context, Tables};
use records::{Kind, Record, Sink};

// How many faces with one key are met, and the second of them, once there is one.
// No Option for 'none counts': less than three and none are the same to the one who asks, that there is no finding.
#[derive(Clone, Copy, Default)]
struct Tally {
    count: usize,
    second: Option<usize>,
}

// Faces g and h have the same key.
fn same_key(t: &Tables, g: usize, h: usize) -> bool
    requires { (g < t.now.layout.now.at.faces) × (h < t.now.layout.now.at.faces) }
    ensures { result ≡ same_as t.now.layout.now (faced_in t.now) g h }
{
    ascending::equal(t.key(g), t.key(h))
}

// Of the keys of face g in an index, one that the fewest faces have.
fn rarest(ix: &Index, g: usize) -> usize
    requires { (g < ix.now.at.faces) × (0 < length (set_of ix.now g)) }
    ensures { elem result (set_of ix.now g) ≡ true }
{
    let keys = ix.set(g);
    let mut v = keys[0] as usize;
    let mut least = ix.list_length(v);
    // no `min_by_key`: that its closure, which asks for a node, may be called at the keys behind the first did not prove
    for &u in &keys[1..] {
        let m = ix.list_length(u as usize);
        if m < least {
            v = u as usize;
            least = m;
        }
    }
    v
}

// Face h, which has the key, comes next.
fn note(s: Tally, h: usize) -> Tally
    requires { s.count < 2 ^ 32 }
    ensures { result ≡ noted h s }
{
    let count = s.count + 1;
    if count == 2 {
        return Tally {
            count,
            second: Some(h),
        };
    }
    Tally { count, ..s }
}

// Of these faces those with g's key, counted; none where one comes before g.
fn walk(t: &Tables, g: usize, faces: &[u32]) -> Tally
    requires { Listed t.now.layout.now g faces.now }
    ensures { result ≡ tallied g (keep (same_as t.now.layout.now (faced_in t.now) g) faces.now) start }
{
    let mut s = Tally::default();
    for &h in faces {
        let h = h as usize;
        if !same_key(t, g, h) {
            continue;
        }
        if h < g {
            return Tally::default();
        }
        s = note(s, h);
    }
    s
}

// The faces with g's sorted ring, counted; none where one comes before g. They are sought in the shortest list of g's keys.
fn count_alike(t: &Tables, by: Places, g: usize) -> Tally
    requires standing { Standing t.now.layout.now t.now.work.now }
    requires g_lt_faces { (g < t.now.layout.now.at.faces) × Keyed t.now.layout.now.at by (base t.now.layout.now.at t.now.work.now) }
    ensures { result ≡ tallied g (alike t.now.layout.now (faced_in t.now) g) start }
{
    let ix = Index::new(t.work, by);
    let v = rarest(&ix, g);
    walk(t, g, &t.work[ix.list(v)])
}

// The finding of face g, where it is the first of more than two with its key.
fn keep_face(cx: &Context, work: &[u32], by: Places, c: usize, g: usize, sink: &mut Sink<'_>)
    requires standing { Standing cx.now.layout work.now }
    requires face_of { FaceOf cx.now.layout (input cx.now.layout.at work.now) c g × Keyed cx.now.layout.at by (base cx.now.layout.at work.now) }
    requires few { sink.old.count < 2 ^ 57 }
    ensures kept_any { KeptAny cx.now.coords.now (over_face cx.now.layout (input cx.now.layout.at work.now) g) sink.old sink.new }
    ensures upper_bound { sink.new.count ≤ sink.old.count + 1 }
{
    let t = Tables {
        work,
        layout: &cx.layout,
    };
    let s = count_alike(&t, by, g);
    let Some(second) = s.second else {
        return;
    };
    if s.count < 3 {
        return;
    }
    let r = Record {
        kind: Kind::Overfull as u8,
        first: c as u32,
        second: t.cell_of(second) as u32,
        a: g as u32,
        b: 0,
        count: s.count as u32,
    };
    sink.keep(r, geometry::key_centroid(cx.coords, t.key(g)));
}

// The overfull faces whose first cell is c.
pub fn keep_overfull(cx: &Context, work: &[u32], by: Places, c: usize, sink: &mut Sink<'_>)
    requires standing { Standing cx.now.layout work.now }
    requires c_bound { (c < cx.now.layout.at.cell_count) × Keyed cx.now.layout.at by (base cx.now.layout.at work.now) }
    requires few { sink.old.count ≤ 2 ^ 56 }
    ensures kept_any { KeptAny cx.now.coords.now (over_cell cx.now.layout (input cx.now.layout.at work.now) c) sink.old sink.new }
    ensures upper_bound { sink.new.count ≤ sink.old.count + 2 ^ 18 }
{
    let t = Tables {
        work,
        layout: &cx.layout,
    };
    for g in t.faces(c) {
        keep_face(cx, work, by, c, g, sink);
    }
}
