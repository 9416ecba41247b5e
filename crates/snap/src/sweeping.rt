// The sweep over sorted nodes: each that is not yet taken leads a group, whose nodes are marked with its smallest number.
// Places go as numbers, each with its own clause: what is known of the words there changes with the stores, and no struct could keep it.
ghost use Rattle.std.specs.Prelude.{◌≡◌, false, ◌+◌, ◌-◌, ◌^◌, ◌≤◌, ◌<◌, length, get_or};
ghost use Rattle.std.proofs.lemmas.List.Edits.{sets};
ghost use Rattle.std.proofs.Math.Seq.{slice};
ghost use Rattle.laws.specs.Merging.{region, AllBelow};
ghost use Rattle.geometry.specs.Coordinates.{node_count};
ghost use Rattle.snap.specs.Weld.{takes as takesOf, least as leastOf};
ghost use Rattle.snap.specs.Steps.{But, far_points, near_points, InOrder, marked, put_all, numbers, weld_from};

use crate::Space;
use geometry::Point;

// Node n is taken: its mark, among the words from k on, is not 0.
fn taken(work: &[u32], k: usize, n: u32) -> bool
    requires { k + n < length work.now }
    ensures { result ≡ marked k work.now n }
{
    work[k + n as usize] != 0
}

// The smallest of a group, which is not empty.
fn least(group: &[u32]) -> u32
    requires { 0 < length group.now }
    ensures { result ≡ leastOf group.now }
{
    group[1..].iter().fold(group[0], |m, n| m.min(*n))
}

// Each of the nodes in [g, e) of work gets the mark v, among the words from k on. By index: the group is read and the marks are written in one
// slice, and to split it in two for each group would be no plainer.
fn put(work: &mut [u32], g: usize, e: usize, k: usize, size: usize, v: u32)
    requires { (g ≤ e) × (e ≤ k) × (k + size ≤ length work.old) × AllBelow size (slice g e work.old) }
    ensures { work.new ≡ put_all k v (slice g e work.old) work.old }
{
    for j in g..e {
        work[k + work[j] as usize] = v;
    }
}

impl Space<'_> {
    // The x of b minus that of a exceeds the tolerance.
    fn far(&self, a: Point, b: Point) -> bool
        ensures { result ≡ far_points self.now.tolerance a b }
    {
        b.x - a.x > self.tolerance
    }

    // The squared distance is at most the tolerance's square. Where the square of one difference is above that, the rest is not computed.
    #[tactic(auto, using(crate::proofs::Squares::second_above, crate::proofs::Squares::third_above), unfolding(geometry::specs::Points::point_dot, geometry::specs::Points::point_sub))]
    fn near(&self, a: Point, b: Point) -> bool
        ensures { result ≡ near_points self.now.tolerance a b }
    {
        let limit = self.tolerance * self.tolerance;
        let z = a.z - b.z;
        if z * z > limit {
            return false;
        }
        let y = a.y - b.y;
        if y * y > limit {
            return false;
        }
        let d = geometry::difference(a, b);
        geometry::dot(d, d) <= limit
    }

    // The node at g leads: those that it takes, among [i, e) of work, go right behind it, before the marks at k. Returns the group's end.
    // The mark of a node that is neither far nor near is not read: taken or not, it is passed over, with others that can be told from it.
    fn takes(&self, work: &mut [u32], i: usize, e: usize, g: usize, k: usize) -> usize
        requires { (i ≤ e) × (e ≤ g) × (g + 1 + (e - i) ≤ k) × (k + node_count self.now.coords.now ≤ length work.old) × (get_or work.old g 0 < node_count self.now.coords.now) × AllBelow (node_count self.now.coords.now) (slice i e work.old) × InOrder self.now.coords.now i e work.old }
        ensures { (result ≡ g + 1 + length (takesOf self.now.coords.now self.now.tolerance (get_or work.old g 0) (marked k work.old) (slice i e work.old))) × (work.new ≡ sets work.old (g + 1) (takesOf self.now.coords.now self.now.tolerance (get_or work.old g 0) (marked k work.old) (slice i e work.old))) }
    {
        let leader = work[g];
        let a = geometry::point3(self.coords, leader);
        let mut j = i;
        let mut last = g;
        // no `for`: the walk jumps over nodes
        while j < e {
            let n = work[j];
            let b = geometry::point3(self.coords, n);
            if self.far(a, b) {
                if taken(work, k, n) {
                    j += 1;
                } else {
                    return last + 1;
                }
            } else if self.near(a, b) {
                if taken(work, k, n) {
                    j += 1;
                } else {
                    work[last + 1] = n;
                    last += 1;
                    j += 1;
                }
            } else {
                j = self.past(work, leader, j, e);
            }
        }
        last + 1
    }

    // The node at i, if it is not taken, leads a group: its nodes go to the words from g on, and are marked with one more than the smallest.
    fn lead(&self, work: &mut [u32], i: usize, e: usize, g: usize, k: usize)
        requires { (i < e) × (e ≤ g) × (g + (e - i) ≤ k) × (k + node_count self.now.coords.now ≤ length work.old) × AllBelow (node_count self.now.coords.now) (slice i e work.old) × InOrder self.now.coords.now i e work.old }
        ensures { (weld_from self.now.coords.now self.now.tolerance k (node_count self.now.coords.now) (i + 1) e work.new ≡ weld_from self.now.coords.now self.now.tolerance k (node_count self.now.coords.now) i e work.old) × But g (k + node_count self.now.coords.now) work.old work.new }
    {
        let p = work[i];
        if taken(work, k, p) {
            return;
        }
        work[g] = p;
        let end = self.takes(work, i + 1, e, g, k);
        let m = least(&work[g..end]);
        put(work, g, end, k, self.count(), m + 1);
    }

    // The sorted nodes in [o, e) of work lead in turn; the words from g on are room for a group.
    pub(crate) fn sweep(&self, work: &mut [u32], o: usize, e: usize, g: usize, k: usize)
        requires { (o ≤ e) × (e ≤ g) × (g + (e - o) ≤ k) × (k + node_count self.now.coords.now ≤ length work.old) × AllBelow (node_count self.now.coords.now) (slice o e work.old) × InOrder self.now.coords.now o e work.old }
        ensures { (numbers 0 (region k (node_count self.now.coords.now) work.new) ≡ weld_from self.now.coords.now self.now.tolerance k (node_count self.now.coords.now) o e work.old) × But g (k + node_count self.now.coords.now) work.old work.new }
    {
        for i in o..e {
            self.lead(work, i, e, g, k);
        }
    }
}
