// Welding among the nodes that cells name: they are marked and listed in lent work, welded, and words taken through the map.
// A loose node, which no cell names, welds nothing.
#![tactic(auto)]

ghost use Rattle.std.specs.Prelude.{◌≡◌, false, map, ◌+◌, ◌*◌, ◌≤◌, ◌<◌, ◌^◌, length};
ghost use Rattle.std.proofs.lemmas.List.Edits.{sets};
ghost use Rattle.laws.specs.Lists.{keep, up_from};
ghost use Rattle.laws.specs.Merging.{region, AllBelow};
ghost use Rattle.geometry.specs.Coordinates.{node_count, coordinates_off};
ghost use Rattle.mesh.specs.Lent.{lent};
ghost use Rattle.mesh.specs.Rings.{nodes_in};
ghost use Rattle.snap.specs.Weld.{welded_by};
ghost use Rattle.snap.specs.Steps.{But, marked, put_all};
ghost use Rattle.welding.specs.Welding.{Welding};
ghost use Rattle.welding.specs.Steps.{named_nodes, welded_over};

use mesh::Model;
use refusals::Refusal;
use snap::Space;

// Each node that the words name gets the mark 1, among the n words from k on.
fn mark_named(words: &[u32], work: &mut [u32], k: usize, n: usize)
    requires { (k + n ≤ length work.old) × AllBelow n (nodes_in words.now) }
    ensures { work.new ≡ put_all k 1 (nodes_in words.now) work.old }
{
    for word in words {
        let w = *word;
        if w == mesh::SEPARATOR {
            continue;
        }
        work[k + w as usize] = 1;
    }
}

// The nodes that are marked, among the n words from k on, go to the front, ascending; answers how many. By index, with a count beside it: the
// list grows in the slice whose marks are read.
fn list_marked(work: &mut [u32], k: usize, n: usize) -> usize
    requires { (n ≤ k) × (k + n ≤ length work.old) × (n < 2 ^ 32) }
    ensures { (result ≡ length (keep (marked k work.old) (up_from 0 n))) × (work.new ≡ sets work.old 0 (keep (marked k work.old) (up_from 0 n))) }
{
    let mut last = 0;
    for i in 0..n {
        if work[k + i] == 0 {
            continue;
        }
        work[last] = i as u32;
        last += 1;
    }
    last
}

// The nodes that the words name, each once, go to the front, ascending; answers how many. The n words from 2n on are room for marks.
fn list_named(words: &[u32], work: &mut [u32], n: usize) -> usize
    requires { (3 * n ≤ length work.old) × (n < 2 ^ 32) × AllBelow n (nodes_in words.now) }
    ensures { (result ≤ n) × (region 0 result work.new ≡ named_nodes words.now) × But 0 (n + n + n) work.old work.new }
{
    work[n + n..n + n + n].fill(0);
    mark_named(words, work, n + n, n);
    list_marked(work, n + n, n)
}

// The welded numbers of all n nodes stand in work from 2n on: the nodes that the words name are welded.
// It asks of a model what it needs, and for no `Accepted`: `weld` judges no flags.
pub fn weld_named(model: &Model, work: &mut [u32])
    requires { (3 * node_count model.now.coords.now ≤ length work.old) × (node_count model.now.coords.now < 2 ^ 32) × (coordinates_off model.now.coords.now ≡ false) × AllBelow (node_count model.now.coords.now) (nodes_in model.now.words.now) }
    ensures { (region (node_count model.now.coords.now + node_count model.now.coords.now) (node_count model.now.coords.now) work.new ≡ welded_over model.now.coords.now model.now.tolerance model.now.words.now) × But 0 (node_count model.now.coords.now + node_count model.now.coords.now + node_count model.now.coords.now) work.old work.new }
{
    let n = model.node_count();
    if model.tolerance == 0.0 {
        snap::number(&mut work[n + n..n + n + n]);
        return;
    }
    let used = list_named(model.words, work, n);
    let space = Space {
        coords: model.coords,
        tolerance: model.tolerance,
    };
    space.weld_in(work, 0, n, n + n, used);
}

// Each of the words through the map of welded numbers. By number: only the front of `out` is written, as far as there are words.
pub fn put_welded(words: &[u32], welds: &[u32], out: &mut [u32])
    requires { (length words.now ≤ length out.old) × AllBelow (length welds.now) words.now }
    ensures { out.new ≡ sets out.old 0 (map (welded_by welds.now) words.now) }
{
    for (i, word) in words.iter().enumerate() {
        out[i] = welds[*word as usize];
    }
}

// Welds the nodes that cells name: map gets the welded numbers of all nodes, in front, and the words of scratch that were used, three a
// node, end 0. No check flags and no cap are looked at.
pub fn weld(model: &Model, map: &mut [u32], scratch: &mut [u32]) -> Result<(), Refusal>
    ensures { Welding (lent model.now) map.old map.new scratch.old scratch.new result }
{
    mesh::judge_mesh(model)?;
    let n = model.node_count();
    if map.len() < n {
        return Err(Refusal::Room);
    }
    if scratch.len() < 3 * n {
        return Err(Refusal::Room);
    }
    weld_named(model, scratch);
    sorting::copy_words(&scratch[n + n..n + n + n], &mut map[..n]);
    scratch[..3 * n].fill(0);
    Ok(())
}
