// Candidates of a face, by common nodes. The slice, its places and the face go side by side: what is known of the words changes as
// candidates are noted, so no struct could hold it; that a face is one of them is a bound and no fact about a value.
#![tactic(auto)]

ghost use Rattle.std.specs.Prelude.{◌≡◌, [], ◌∷◌, map, ◌+◌, ◌≤◌, ◌<◌, ◌^◌, leb, length, true};
ghost use Rattle.std.proofs.lemmas.List.Edits.{sets};
ghost use Rattle.laws.specs.Lists.{only_if, keep, eql};
ghost use Rattle.counting.specs.Counts.{below};
ghost use Rattle.index.specs.Faces.{input, base, words_of};
ghost use Rattle.index.specs.Read.{input_of, set_of};
ghost use Rattle.merge.specs.Runs.{rest, Ends};
ghost use Rattle.seek.specs.Candidates.{common, shares, Ready, Sought, went_by_nodes, SoughtBy, TalliedMore};
ghost use Rattle.seek.specs.Steps.{Runs, Hidden, Rising, AllRising, Forward, Passed, Begun, one, apart};

use index::Index;

// The two ways of seeking candidates: by common nodes, or by node triples.
#[derive(Clone, Copy, Debug, PartialEq, Eq)]
pub enum Way {
    ByNodes,
    ByTriples,
}

// What a search answers: which way it went, and how many candidates it found.
#[derive(Clone, Copy)]
pub struct Searched {
    pub way: Way,
    pub count: usize,
}

// How many faces were sought by each way.
#[derive(Clone, Copy, Default)]
pub struct Tally {
    pub nodes: usize,
    pub triples: usize,
}

impl Searched {
    // One face more, sought this way.
    pub fn tallied(self, t: Tally) -> Tally
        requires { (t.nodes < 2 ^ 40) × (t.triples < 2 ^ 40) }
        ensures { TalliedMore (went_by_nodes self) 1 t result }
    {
        match self.way {
            Way::ByNodes => Tally {
                nodes: t.nodes + 1,
                ..t
            },
            Way::ByTriples => Tally {
                triples: t.triples + 1,
                ..t
            },
        }
    }
}

// The test that is cheap: a later face of another cell, and neither cell is a bow-tie.
pub fn is_apart(ix: &Index, lo: usize, g: usize) -> bool
    requires { (lo < ix.now.at.faces) × (g < ix.now.at.faces) }
    ensures { result ≡ apart ix.now.at (input_of ix.now) lo g }
{
    if g <= lo {
        return false;
    }
    let cells = ix.at.cells;
    if ix.base[cells + lo] == ix.base[cells + g] {
        return false;
    }
    if ix.bow_at(lo) {
        return false;
    }
    !ix.bow_at(g)
}

// The node sets of two faces are equal.
pub fn same_set(ix: &Index, lo: usize, g: usize) -> bool
    requires { (lo < ix.now.at.faces) × (g < ix.now.at.faces) }
    ensures { result ≡ eql (set_of ix.now lo) (set_of ix.now g) }
{
    ascending::equal(ix.set(lo), ix.set(g))
}

// Face g, which has c nodes in common with lo, is a candidate.
fn is_candidate(ix: &Index, lo: usize, g: usize, c: usize) -> bool
    requires lo_lt_faces { (lo < ix.now.at.faces) × (g < ix.now.at.faces) }
    requires c_value { c ≡ length (common (set_of ix.now lo) (set_of ix.now g)) }
    ensures { result ≡ shares ix.now.at (input_of ix.now) lo g }
{
    if c < 3 {
        return false;
    }
    if !is_apart(ix, lo, g) {
        return false;
    }
    !same_set(ix, lo, g)
}

// Notes g behind n others where it is wanted; answers how many there are then. The test comes as its answer, for the promise is the
// definition's own word for it, `only_if`.
fn note(work: &mut [u32], found: usize, n: usize, wanted: bool, g: usize) -> usize
    requires { (found + n < length work.old) × (g < 2 ^ 32) }
    ensures value { result ≡ n + length (only_if wanted (g ∷ [])) }
    ensures work_after { work.new ≡ sets work.old (found + n) (only_if wanted (g ∷ [])) }
{
    if wanted {
        work[found + n] = g as u32;
        return n + 1;
    }
    n
}

// Takes face g, which is next, from the runs that have it, and notes it behind n others where it is a candidate.
fn take_face(
    work: &mut [u32],
    at: index::Places,
    lo: usize,
    runs: &mut merge::Runs,
    n: usize,
    g: usize,
) -> usize
    requires ready { Ready at lo work.old }
    requires g_lt_faces { (g < at.faces) × (n < at.faces) }
    requires runs { Runs at (base at work.old) lo runs.old.count g runs.old.from runs.old.to }
    ensures value { result ≡ n + length (one at (input at work.old) lo g) }
    ensures work_after { work.new ≡ sets work.old (at.found + n) (one at (input at work.old) lo g) }
    ensures runs_2 { Runs at (base at work.old) lo runs.new.count (g + 1) runs.new.from runs.new.to }
{
    let ix = Index::new(work, at);
    let c = runs.pass(ix.base, g);
    let wanted = is_candidate(&ix, lo, g, c);
    note(work, at.found, n, wanted, g)
}

// The runs of lo's nodes merged, and the candidates noted; answers how many there are.
fn merge_runs(work: &mut [u32], at: index::Places, lo: usize, runs: &mut merge::Runs) -> usize
    requires ready { Ready at lo work.old }
    requires begun { Begun at work.old lo runs.old.count runs.old.from runs.old.to }
    ensures { Sought at lo work.old work.new result }
{
    let mut n = 0;
    let mut g = runs.lowest(&work[..at.found], at.faces);
    // no `for`: the next face is the lowest that any run has next; it is `at.faces` where none has one, and no Option, since then no
    // number would rise from turn to turn
    while g < at.faces {
        n = take_face(work, at, lo, runs, n, g);
        g = runs.lowest(&work[..at.found], at.faces);
    }
    n
}

// Where the ascending run from x to e has its first number that is not below `end`. By places, as the runs hold them: what is answered is one.
fn skip_run(base: &[u32], x: usize, e: usize, end: usize) -> usize
    requires { (x ≤ e) × (e ≤ length base.now) × Rising x e base.now }
    ensures { rest result e base.now ≡ keep (leb end) (rest x e base.now) }
{
    x + base[x..e].partition_point(|&g| (g as usize) < end)
}

// Each run, which ascends, goes on to its first number that is not below `end`.
fn skip_runs(base: &[u32], runs: &mut merge::Runs, end: usize)
    requires ends { Ends runs.old.count runs.old.to base.now × Forward runs.old.count runs.old.from runs.old.to }
    requires rising { AllRising runs.old.count base.now runs.old.from runs.old.to }
    ensures passed { Passed runs.old.count end base.now runs.old.from runs.new.from runs.old.to }
    ensures others { (runs.new.count ≡ runs.old.count) × (runs.new.to ≡ runs.old.to) }
{
    // by number: of both lists only the first `count` count, and the promise goes by the number
    for i in 0..runs.count {
        runs.from[i] = skip_run(base, runs.from[i], runs.to[i], end);
    }
}

// The candidates of face lo, of which none is before `end`; answers how many there are.
fn seek(work: &mut [u32], at: index::Places, lo: usize, end: usize) -> usize
    requires ready { Ready at lo work.old }
    requires end_le_faces { (end ≤ at.faces) × Hidden at (input at work.old) lo end }
    ensures { Sought at lo work.old work.new result }
{
    let ix = Index::new(work, at);
    if ix.bow_at(lo) {
        return 0;
    }
    let mut runs = merge::Runs::open(ix.base, ix.set(lo), ix.at.offsets, ix.at.index);
    skip_runs(ix.base, &mut runs, end);
    merge_runs(work, at, lo, &mut runs)
}

// By common nodes: a merge of the lists of lo's nodes, in which a face comes as often as it has one of them.
// It begins at face `end`, before which none is a candidate. None where lo's cell is a bow-tie.
pub fn seek_by_nodes(work: &mut [u32], at: index::Places, lo: usize, end: usize) -> Searched
    requires ready { Ready at lo work.old }
    requires end_le_faces { (end ≤ at.faces) × Hidden at (input at work.old) lo end }
    ensures { SoughtBy true at lo work.old work.new result }
{
    Searched {
        way: Way::ByNodes,
        count: seek(work, at, lo, end),
    }
}
