// Candidates of a face, sought the way that is asked for, and which way is less work. The slice, the places of both indexes and the face go
// side by side: what is known of the words changes with each search, so no struct could hold it.
#![tactic(auto)]

ghost use Rattle.std.specs.Prelude.{◌≡◌, ◌*◌, ◌≤◌, ◌^◌, length};
ghost use Rattle.laws.specs.Lists.{pairs_of, triples_of};
ghost use Rattle.index.specs.Faces.{input, base, Laid, Room};
ghost use Rattle.index.specs.Read.{input_of};
ghost use Rattle.seek.specs.Candidates.{Ready, SoughtBy, by_nodes};
ghost use Rattle.seek.specs.Steps.{Hidden};
ghost use Rattle.triple_keys.specs.Keys.{Keyed};
ghost use Rattle.pairs.specs.Tables.{with_index, ReadyAll};
ghost use Rattle.pairs.specs.Work.{node_work, triple_work, is_by_nodes, Few};

use index::Index;
use seek::{Searched, Way};

// Pairs of n things.
fn pairs_of(n: usize) -> usize
    requires { n ≤ 2 ^ 20 }
    ensures { (result ≡ pairs_of n) × (result ≤ n * 2 ^ 20) }
{
    n * n.saturating_sub(1) / 2
}

// Triples of n things.
fn triples_of(n: usize) -> usize
    requires { n ≤ 64 }
    ensures { (result ≡ triples_of n) × (result ≤ 2 ^ 18) }
{
    n * n.saturating_sub(1) * n.saturating_sub(2) / 6
}

// For each node the pairs of faces that have it, added up.
pub fn node_work(ix: &Index) -> usize
    requires { Few ix.now.at }
    ensures { result ≡ node_work ix.now.at (input_of ix.now) }
{
    let mut total = 0;
    // no `map(..).sum()`: that the closure, which asks for a node, may be called, and that each sum on the way fits, did not prove
    for n in 0..ix.at.nodes {
        total += pairs_of(ix.list_length(n));
    }
    total
}

// For each face the triples of its nodes, added up.
pub fn triple_work(ix: &Index) -> usize
    requires { Few ix.now.at }
    ensures { (result ≡ triple_work ix.now.at (input_of ix.now)) × (result ≤ 2 ^ 36) }
{
    let mut total = 0;
    // no `map(..).sum()`: the closure asks for a face, as the one above for a node
    for g in 0..ix.at.faces {
        total += triples_of(ix.set_size(g));
    }
    total
}

// The way that is less work: by common nodes where that is at most four times the work of the way by triples.
pub fn less_work(ix: &Index) -> Way
    requires { Few ix.now.at }
    ensures { by_nodes result ≡ is_by_nodes ix.now.at (input_of ix.now) }
{
    if node_work(ix) <= 4 * triple_work(ix) {
        Way::ByNodes
    } else {
        Way::ByTriples
    }
}

// Builds the index, once for all faces, and answers which way is less work.
pub fn prepare(work: &mut [u32], at: index::Places) -> Way
    requires laid { Laid at (input at work.old) }
    requires room { Room at (length work.old) }
    requires few { Few at }
    ensures value { by_nodes result ≡ is_by_nodes at (input at work.old) }
    ensures work_after { work.new ≡ with_index at work.old }
    ensures ready_all { ReadyAll at work.new }
{
    index::build_index(work, at);
    less_work(&Index::new(work, at))
}

// The candidates of face lo, sought the way that is asked for, each way with its own function. Apart from `candidates_of`: with one
// promise the match needs no answer, so an edit of it is refused by the promise, and not for a name in an answer.
fn seek(
    work: &mut [u32],
    at: index::Places,
    by: index::Places,
    lo: usize,
    end: usize,
    way: Way,
) -> Searched
    requires ready { Ready at lo work.old × Keyed at by (base at work.old) }
    requires end_le_faces { (end ≤ at.faces) × Hidden at (input at work.old) lo end }
    ensures { SoughtBy (by_nodes way) at lo work.old work.new result }
{
    match way {
        Way::ByNodes => seek::seek_by_nodes(work, at, lo, end),
        Way::ByTriples => triples::seek_by_triples(work, at, by, lo),
    }
}

// The candidates of face lo, of which none is before `end`, sought the way that is asked for, as the answer tells; `by` is the second
// index, and the slice is ready for the next face.
pub fn candidates_of(
    work: &mut [u32],
    at: index::Places,
    by: index::Places,
    lo: usize,
    end: usize,
    way: Way,
) -> Searched
    requires ready { Ready at lo work.old × Keyed at by (base at work.old) }
    requires end_le_faces { (end ≤ at.faces) × Hidden at (input at work.old) lo end }
    ensures sought_by { SoughtBy (by_nodes way) at lo work.old work.new result }
    ensures ready_all { ReadyAll at work.new }
{
    seek(work, at, by, lo, end, way)
}
