// The common nodes of two faces: their number, whether they span an area, and their centre. Coordinates and tolerance are arguments of their
// own: with the layout's `Context` the crate would rest on all that a layout is of, for two of its fields.
#![tactic(auto)]

ghost use Rattle.std.specs.Prelude.{◌≡◌, [], ◌<◌, ◌≤◌, length};
ghost use Rattle.laws.specs.Lists.{elem};
ghost use Rattle.geometry.specs.Points.{points_of, centre_of};
ghost use Rattle.geometry.specs.Coordinates.{node_count};
ghost use Rattle.area.specs.AreaTest.{area_of, is_spans};
ghost use Rattle.index.specs.Read.{set_of};
ghost use Rattle.seek.specs.Candidates.{common};

use arrayvec::ArrayVec;
use index::Index;

// How many nodes are common, and their centre.
#[derive(Clone, Copy)]
pub struct Shared {
    pub count: usize,
    pub centre: geometry::Point,
}

// A word stands among others. By a loop: the library's `contains` is called, and for three or four nodes takes three times as long.
fn has(words: &[u32], v: u32) -> bool
    ensures { result ≡ elem v words.now }
{
    for &word in words {
        if word == v {
            return true;
        }
    }
    false
}

// Those of some words that stand among others go to a list that is empty. It is lent: answered by value its 64 words are copied twice for
// each pair of faces.
fn pick(words: &[u32], others: &[u32], own: &mut ArrayVec<u32, 64>)
    requires { (length words.now ≤ 64) × (own.old.items ≡ []) }
    ensures { own.new.items ≡ common words.now others.now }
{
    for &v in words {
        if has(others, v) {
            own.push(v);
        }
    }
}

// The nodes of face f that face g has too.
fn list_common(ix: &Index, f: usize, g: usize, own: &mut ArrayVec<u32, 64>)
    requires { (f < ix.now.at.faces) × (g < ix.now.at.faces) × (own.old.items ≡ []) }
    ensures { own.new.items ≡ common (set_of ix.now f) (set_of ix.now g) }
{
    pick(ix.set(f), ix.set(g), own);
}

// The common nodes span an area.
pub fn spans(coords: &[f64], tol: f64, ix: &Index, f: usize, g: usize) -> bool
    requires f_lt_faces { (f < ix.now.at.faces) × (g < ix.now.at.faces) }
    requires nodes_value { ix.now.at.nodes ≡ node_count coords.now }
    ensures { result ≡ is_spans (area_of tol (points_of coords.now (common (set_of ix.now f) (set_of ix.now g)))) }
{
    let mut nodes = ArrayVec::new();
    list_common(ix, f, g, &mut nodes);
    area::common_nodes_span_area(coords, nodes.as_slice(), tol)
}

// The number of the common nodes, and their centre.
pub fn shared_of(coords: &[f64], ix: &Index, f: usize, g: usize) -> Shared
    requires f_lt_faces { (f < ix.now.at.faces) × (g < ix.now.at.faces) }
    requires nodes_value { ix.now.at.nodes ≡ node_count coords.now }
    ensures count_value { (result.count ≡ length (common (set_of ix.now f) (set_of ix.now g))) × (result.count ≤ 64) }
    ensures centre_value { result.centre ≡ centre_of (points_of coords.now (common (set_of ix.now f) (set_of ix.now g))) }
{
    let mut nodes = ArrayVec::new();
    list_common(ix, f, g, &mut nodes);
    Shared {
        count: nodes.len(),
        centre: geometry::key_centroid(coords, nodes.as_slice()),
    }
}
