// Welded numbers: nodes that lie within the tolerance of a leader get one number (`duplicates_dim_n`).
#![tactic(auto)]

mod node_order;
mod passing;
mod space;
mod sweeping;

ghost use Rattle.std.specs.Prelude.{◌≡◌, false, ◌+◌, ◌^◌, ◌≤◌, ◌<◌, length, replicate};
ghost use Rattle.std.proofs.lemmas.List.Edits.{sets};
ghost use Rattle.std.specs.Float.Ieee.{eq};
ghost use Rattle.laws.specs.Lists.{up_from};
ghost use Rattle.laws.specs.Merging.{region, AllBelow};
ghost use Rattle.floats.specs.Floats.{zero64};
ghost use Rattle.geometry.specs.Coordinates.{node_count};
ghost use Rattle.snap.specs.Weld.{welded};
ghost use Rattle.snap.specs.Steps.{But, number_of, numbers};

pub use space::Space;

// The number that the mark w gives node i. A mark is one word of the lent work, where an Option would take two: 0 for none, else the
// number plus one.
#[tactic(auto, unfolding(crate::specs::Steps::number_of))]
fn number_of(i: u32, w: u32) -> u32
    ensures { result ≡ number_of i w }
{
    w.checked_sub(1).unwrap_or(i)
}

// Each mark becomes the number that it gives its node.
fn settle(marks: &mut [u32])
    requires { length marks.old < 2 ^ 32 }
    ensures { marks.new ≡ numbers 0 marks.old }
{
    for (i, mark) in marks.iter_mut().enumerate() {
        *mark = number_of(i as u32, *mark);
    }
}

// The words are 0, 1, ..
#[tactic(auto, using(crate::proofs::Marks::number_step))]
pub fn number(part: &mut [u32])
    requires { length part.old < 2 ^ 32 }
    ensures { part.new ≡ up_from 0 (length part.old) }
{
    for (i, word) in part.iter_mut().enumerate() {
        *word = i as u32;
    }
}

impl Space<'_> {
    // The welded numbers of all nodes go to the words from k on, those of the n nodes from a on welded, for a tolerance that is not 0; the
    // n words from s on are room. By places in the whole slice: it is written at all four of them.
    pub fn weld_in(&self, work: &mut [u32], a: usize, s: usize, k: usize, n: usize)
        requires { (a + n ≤ s) × (s + n ≤ k) × (k + node_count self.now.coords.now ≤ length work.old) × AllBelow (node_count self.now.coords.now) (region a n work.old) × (eq self.now.tolerance zero64 ≡ false) }
        ensures { (region k (node_count self.now.coords.now) work.new ≡ welded self.now.coords.now self.now.tolerance (node_count self.now.coords.now) (region a n work.old)) × But a (k + node_count self.now.coords.now) work.old work.new }
    {
        let size = self.count();
        self.sort(work, a, s, n);
        work[k..k + size].fill(0);
        self.sweep(work, a, a + n, s, k);
        settle(&mut work[k..k + size]);
    }
}
