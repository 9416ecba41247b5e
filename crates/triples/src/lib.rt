// Candidates of a face, by node triples.
#![tactic(auto)]

ghost use Rattle.std.specs.Prelude.{◌≡◌, false, [], ◌∷◌, ℕ, ◌+◌, ◌≤◌, ◌<◌, leb, length, get_or};
ghost use Rattle.laws.specs.Lists.{only_if, each, keep};
ghost use Rattle.laws.specs.Merging.{Asc};
ghost use Rattle.index.specs.Faces.{input, base};
ghost use Rattle.index.specs.Read.{input_of};
ghost use Rattle.merge.specs.Runs.{rest};
ghost use Rattle.seek.specs.Candidates.{common, shares, Ready, Sought, SoughtBy};
ghost use Rattle.triple_keys.specs.Keys.{Keyed};
ghost use Rattle.triples.specs.Hits.{hits_by, Open, Added, Beside, Known, NodesAt, AddedRare};

use index::{Index, Places};
use seek::{Searched, Way};

// Two places of keys, the lower first, and how many faces have these.
#[derive(Clone, Copy)]
struct Two {
    i: usize,
    j: usize,
    x: usize,
    y: usize,
}

impl Two {
    // Of the two and k, a later place, whose list has m faces: the two of the longest lists.
    fn longer(self, k: usize, m: usize) -> Two
        requires { (self.i < self.j) × (self.j < k) }
        ensures { (self.i ≤ result.i) × (result.i < result.j) × (result.j ≤ k) }
    {
        if self.x < self.y {
            if self.x < m {
                return Two {
                    i: self.j,
                    j: k,
                    x: self.y,
                    y: m,
                };
            }
            return self;
        }
        if self.y < m {
            return Two { j: k, y: m, ..self };
        }
        self
    }
}

// Of the keys from s to e two that the most faces have.
fn two_longest(ix: &Index, s: usize, e: usize) -> Two
    requires { (s + 2 ≤ e) × (e ≤ length ix.now.base.now) × Known ix.now.at ix.now.base.now s e }
    ensures { (s ≤ result.i) × (result.i < result.j) × (result.j < e) }
{
    let mut t = Two {
        i: s,
        j: s + 1,
        x: ix.list_length(ix.base[s] as usize),
        y: ix.list_length(ix.base[s + 1] as usize),
    };
    // no `max_by_key`: there is none for two, and it is their places that are wanted
    for k in s + 2..e {
        t = t.longer(k, ix.list_length(ix.base[k] as usize));
    }
    t
}

// Three or more of the words of one ascending list stand in another: both are gone through together.
fn has_three(a: &[u32], b: &[u32]) -> bool
    requires { Asc a.now × Asc b.now }
    ensures { result ≡ leb 3 (length (common a.now b.now)) }
{
    let mut n: usize = 0;
    let mut i = 0;
    let mut m = 0;
    // no `for`: two places move, one at a time or both
    while i < a.len() {
        if b.len() <= m {
            return false;
        }
        let x = a[i];
        let y = b[m];
        if x < y {
            i += 1;
        } else if y < x {
            m += 1;
        } else {
            if n == 2 {
                return true;
            }
            n += 1;
            i += 1;
            m += 1;
        }
    }
    false
}

// Face g is a candidate of lo: the cheap tests first, the common nodes last.
fn is_hit(ix: &Index, lo: usize, g: usize) -> bool
    requires { (lo < ix.now.at.faces) × (g < ix.now.at.faces) }
    ensures { result ≡ shares ix.now.at (input_of ix.now) lo g }
{
    if !seek::is_apart(ix, lo, g) {
        return false;
    }
    if seek::same_set(ix, lo, g) {
        return false;
    }
    has_three(ix.set(lo), ix.set(g))
}

// What a search goes by: the index of the faces by node, a second one, and the face whose candidates are sought.
// What holds of the slice that is searched is no part of it, for each step stores into the slice.
#[derive(Clone, Copy)]
struct Seeking {
    at: Places,
    by: Places,
    lo: usize,
}

impl Seeking {
    // Adds face g to the n candidates where it is one.
    fn consider(&self, work: &mut [u32], n: usize, g: usize) -> usize
        requires fact { Open self.now.at self.now.lo n work.old }
        requires g_lt_faces { g < self.now.at.faces }
        ensures { Added self.now.at (only_if (shares self.now.at (input self.now.at (base self.now.at work.old)) self.now.lo g) (g ∷ [])) n work.old result work.new }
    {
        if !is_hit(&Index::new(work, self.at), self.lo, g) {
            return n;
        }
        ascending::insert(work, self.at.found, n, g as u32)
    }

    // The faces that stand from x to e. A counted loop here and in walk_keys: a step stores into the slice, which no borrow may outlast.
    fn walk(&self, work: &mut [u32], n: usize, x: usize, e: usize) -> usize
        requires fact { Open self.now.at self.now.lo n work.old }
        requires e_le_found { (e ≤ self.now.at.found) × ((i : ℕ) → x ≤ i → i < e → get_or (base self.now.at work.old) i 0 < self.now.at.faces) }
        ensures { Added self.now.at (keep (shares self.now.at (input self.now.at (base self.now.at work.old)) self.now.lo) (rest x e (base self.now.at work.old))) n work.old result work.new }
    {
        let mut n = n;
        for i in x..e {
            let g = work[i] as usize;
            n = self.consider(work, n, g);
        }
        n
    }

    // All faces that have key v.
    fn walk_key(&self, work: &mut [u32], n: usize, v: usize) -> usize
        requires fact { Open self.now.at self.now.lo n work.old }
        requires beside { Beside self.now.at self.now.by (base self.now.at work.old) × (v < self.now.by.nodes) }
        ensures { Added self.now.at (hits_by self.now.at self.now.by (base self.now.at work.old) self.now.lo v) n work.old result work.new }
    {
        let ends = Index::new(work, self.by).list(v);
        self.walk(work, n, ends.start, ends.end)
    }

    // All faces that have one of the keys that stand from s to e.
    fn walk_keys(&self, work: &mut [u32], n: usize, s: usize, e: usize) -> usize
        requires fact { Open self.now.at self.now.lo n work.old }
        requires beside { Beside self.now.at self.now.by (base self.now.at work.old) × (e ≤ self.now.at.found) × Known self.now.by (base self.now.at work.old) s e }
        ensures { Added self.now.at (each (hits_by self.now.at self.now.by (base self.now.at work.old) self.now.lo) (rest s e (base self.now.at work.old))) n work.old result work.new }
    {
        let mut n = n;
        for i in s..e {
            let v = work[i] as usize;
            n = self.walk_key(work, n, v);
        }
        n
    }

    // All faces that have one of the keys from s to e, but for two keys that the most faces have: who shares three has one of the others.
    fn walk_rare(&self, work: &mut [u32], n: usize, s: usize, e: usize) -> usize
        requires fact { Open self.now.at self.now.lo n work.old }
        requires beside { Beside self.now.at self.now.by (base self.now.at work.old) × (s + 2 ≤ e) × (e ≤ self.now.at.found) × Known self.now.by (base self.now.at work.old) s e }
        ensures { AddedRare self.now.at self.now.by self.now.lo n s e work.old result work.new }
    {
        let t = two_longest(&Index::new(work, self.by), s, e);
        let a = self.walk_keys(work, n, s, t.i);
        let b = self.walk_keys(work, a, t.i + 1, t.j);
        self.walk_keys(work, b, t.j + 1, e)
    }

    // The candidates of a face of three or four nodes, whose places are s to e: faces as short stand by their triples, others by their nodes.
    fn seek_short(&self, work: &mut [u32], s: usize, e: usize) -> usize
        requires ready { Ready self.now.at self.now.lo work.old × Keyed self.now.at self.now.by (base self.now.at work.old) }
        requires nodes_at { NodesAt self.now.at (base self.now.at work.old) self.now.lo s e × (s + 3 ≤ e) × (e ≤ s + 4) }
        ensures { Sought self.now.at self.now.lo work.old work.new result }
    {
        let keys = Index::new(work, self.by);
        let a = keys.set_start(self.lo);
        let k = keys.set_size(self.lo);
        let n = self.walk_keys(work, 0, a, a + k);
        self.walk_rare(work, n, s, e)
    }

    // The candidates; answers how many there are.
    fn seek(&self, work: &mut [u32]) -> usize
        requires { Ready self.now.at self.now.lo work.old × Keyed self.now.at self.now.by (base self.now.at work.old) }
        ensures { Sought self.now.at self.now.lo work.old work.new result }
    {
        let ix = Index::new(work, self.at);
        if ix.bow_at(self.lo) {
            return 0;
        }
        let s = ix.set_start(self.lo);
        let k = ix.set_size(self.lo);
        if k < 3 {
            return 0;
        }
        let e = s + k;
        if k <= 4 {
            return self.seek_short(work, s, e);
        }
        let by_nodes = Seeking {
            by: self.at,
            ..*self
        };
        by_nodes.walk_rare(work, 0, s, e)
    }
}

// By node triples: every later face that has a triple of lo's nodes is met. Where both are short it stands in the list of the triple's
// number, else in that of a node of the triple that is not left out. None where lo's cell is a bow-tie.
pub fn seek_by_triples(work: &mut [u32], at: Places, by: Places, lo: usize) -> Searched
    requires { Ready at lo work.old × Keyed at by (base at work.old) }
    ensures { SoughtBy false at lo work.old work.new result }
{
    Searched {
        way: Way::ByTriples,
        count: Seeking { at, by, lo }.seek(work),
    }
}
