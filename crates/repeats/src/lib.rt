// The repeated nodes of a cell: pairs of unlike nodes of one welded number, each with the last one before it.
#![tactic(auto)]

ghost use Rattle.std.specs.Prelude.{◌≡◌, ◌∷◌, [], ◌+◌, ◌≤◌, ◌<◌, ◌^◌, length};
ghost use Rattle.std.proofs.lemmas.List.Edits.{sets};
ghost use Rattle.findings.specs.Rules.{pair_of};
ghost use Rattle.pair_sort.specs.Pairs.{flat};
ghost use Rattle.mesh.specs.Rings.{nodes_in};
ghost use Rattle.repeats.specs.Marks.{hit, mark, weld_in, marks_in, place_of, Sound, Numbered, Noting, Noted, Found};
ghost use Rattle.repeats.specs.Repeats.{Ready, Listed};

// Where the regions of the work lie: welded numbers and marks, one for each of the nodes; pairs; room to sort them. Layout, in a crate of its own,
// has the same places: with a Regions inside, the welded numbers, which other passes read too, would stand apart from its tables.
#[derive(Clone, Copy)]
pub struct Regions {
    pub nodes: usize,
    pub weld: usize,
    pub last: usize,
    pub pairs: usize,
    pub spare: usize,
}

// The pair of n and q goes to o, the smaller first. By the place in the whole slice, of which its callers say what it holds; so in `put_hit`.
fn put_pair(work: &mut [u32], o: usize, n: u32, q: u32)
    requires { o + 2 ≤ length work.old }
    ensures { work.new ≡ sets work.old o (flat (pair_of n q ∷ [])) }
{
    work[o] = n.min(q);
    work[o + 1] = n.max(q);
}

// Node n, where its welded number's mark is p: its pair, if there is one, goes to o; says how many that are. A mark is one word of the
// lent work, where an Option would take two: 0 for none, else the node plus one.
fn put_hit(work: &mut [u32], o: usize, n: u32, p: u32) -> usize
    requires { (o + 2 ≤ length work.old) × (n + 1 < 2 ^ 32) }
    ensures { (result ≡ length (hit n p)) × (work.new ≡ sets work.old o (flat (hit n p))) }
{
    match p.checked_sub(1) {
        Some(q) if q != n => {
            put_pair(work, o, n, q);
            1
        }
        _ => 0,
    }
}

// Where node n's mark stands.
fn place(work: &[u32], at: Regions, n: u32) -> usize
    requires { Numbered work.now at n }
    ensures { result ≡ place_of at work.now n }
{
    at.last + work[at.weld + n as usize] as usize
}

// Node n, behind k pairs: its pair is put behind them, its mark is put, and there are as many pairs as said.
fn note(work: &mut [u32], at: Regions, k: usize, n: u32) -> usize
    requires { Noting work.old at k n }
    ensures { Noted work.old work.new at k n result }
{
    let m = place(work, at, n);
    let p = work[m];
    work[m] = n + 1;
    k + put_hit(work, at.pairs + 2 * k, n, p)
}

// All pairs of the words, in order, into their region; the marks are put.
fn find_pairs(words: &[u32], work: &mut [u32], at: Regions) -> usize
    requires { Sound words.now work.old at }
    ensures { Found words.now work.old work.new at result }
{
    let mut k = 0;
    for n in words {
        if *n != mesh::SEPARATOR {
            k = note(work, at, k, *n);
        }
    }
    k
}

// The marks of the words' nodes become zero.
fn forget(words: &[u32], work: &mut [u32], at: Regions)
    requires { Sound words.now work.old at }
    ensures { work.new ≡ sets work.old at.last (mark (weld_in at work.old) (λ n. 0) (marks_in at work.old) (nodes_in words.now)) }
{
    for n in words {
        if *n != mesh::SEPARATOR {
            let m = place(work, at, *n);
            work[m] = 0;
        }
    }
}

// The repeated pairs of a cell's words, sorted, each once, in their region; says how many.
pub fn list_repeats(words: &[u32], work: &mut [u32], at: Regions) -> usize
    requires { Ready words.now work.old at }
    ensures { Listed words.now work.old work.new at result }
{
    let found = find_pairs(words, work, at);
    forget(words, work, at);
    pair_sort::sort_pairs(work, at.pairs, at.spare, found);
    pair_sort::unique_pairs(work, at.pairs, found)
}
