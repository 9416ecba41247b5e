// Nodes that a leader passes over: in the order of nodes, those of one x whose y or z lies too far from the leader's stand together.
ghost use Rattle.std.specs.Prelude.{ℕ, ◌≡◌, false, ◌≤◌, ◌<◌, length, get_or};
ghost use Rattle.std.proofs.Math.Seq.{slice};
ghost use Rattle.laws.specs.Merging.{AllBelow};
ghost use Rattle.geometry.specs.Coordinates.{node_count};
ghost use Rattle.snap.specs.Steps.{apart_by, outside_of, passed_of};

use crate::Space;
use geometry::Point;

// A place that was reached, and the size of the step that comes next.
#[derive(Clone, Copy)]
pub struct Stride {
    pub last: usize,
    pub step: usize,
}

// The square of x - y is above the limit.
fn apart(x: f64, y: f64, limit: f64) -> bool
    ensures { result ≡ apart_by limit x y }
{
    let d = x - y;
    d * d > limit
}

// All values from b to m are apart from a: the nearest of them is.
fn outside(a: f64, b: f64, m: f64, limit: f64) -> bool
    ensures { result ≡ outside_of limit a b m }
{
    if a < b {
        return apart(a, b, limit);
    }
    if m < a {
        return apart(a, m, limit);
    }
    false
}

// All points from b to m, in the order of nodes, have b's x and a y or z that is apart from a's.
fn passed(a: Point, b: Point, m: Point, limit: f64) -> bool
    ensures { result ≡ passed_of limit a b m }
{
    if b.x < m.x {
        return false;
    }
    if outside(a.y, b.y, m.y, limit) {
        return true;
    }
    if b.y < m.y {
        return false;
    }
    outside(a.z, b.z, m.z, limit)
}

// The nodes in [from, end) of work, after a leader whose point is a; the first of them, at b, is passed over.
#[derive(Clone, Copy)]
struct Walk<'a> {
    coords: &'a [f64],
    work: &'a [u32],
    limit: f64,
    a: Point,
    b: Point,
    from: usize,
    end: usize,
    ghost in_work: { end ≤ length work.now },
    ghost are_nodes: { (i : ℕ) → from ≤ i → i < end → get_or work.now i 0 < node_count coords.now },
}

impl Walk<'_> {
    ghost use Rattle.snap.specs.Walks.{ReachedBy};

    // A step on from `last`, where all up to there are passed over with the first; else `last`.
    fn step_on(&self, last: usize, step: usize) -> usize
        requires { (self.now.from ≤ last) × (last < self.now.end) × ReachedBy self.now last }
        ensures { (last ≤ result) × (result < self.now.end) × ReachedBy self.now result }
    {
        if self.end - last <= step {
            return last;
        }
        let next = last + step;
        let m = geometry::point3(self.coords, self.work[next]);
        if passed(self.a, self.b, m, self.limit) {
            return next;
        }
        last
    }

    // Steps on from the first, each twice the one before.
    fn leap(&self) -> Stride
        requires { self.now.from < self.now.end }
        ensures { (self.now.from ≤ result.last) × (result.last < self.now.end) × ReachedBy self.now result.last }
    {
        let mut last = self.from;
        let mut step: usize = 1;
        // no `for`: the steps double
        while step < self.end {
            let next = self.step_on(last, step);
            if next == last {
                return Stride { last, step };
            }
            last = next;
            step += step;
        }
        Stride { last, step }
    }

    // Steps on from the place that was reached, the first of half the last step there, each other of half the one before.
    fn land(&self, from: Stride) -> usize
        requires { (self.now.from ≤ from.last) × (from.last < self.now.end) × ReachedBy self.now from.last }
        ensures { (self.now.from ≤ result) × (result < self.now.end) × ReachedBy self.now result }
    {
        let mut last = from.last;
        let mut step = from.step / 2;
        // no `for`: the steps halve
        while 0 < step {
            last = self.step_on(last, step);
            step /= 2;
        }
        last
    }
}

impl Space<'_> {
    ghost use Rattle.snap.specs.Weld.{far_of, near_of};
    ghost use Rattle.snap.specs.Steps.{InOrder, PassedOver};

    // The node at j is passed over by the leader; the place behind it and others that are passed over too.
    pub(crate) fn past(&self, work: &[u32], leader: u32, j: usize, e: usize) -> usize
        requires { (j < e) × (e ≤ length work.now) × (leader < node_count self.now.coords.now) × AllBelow (node_count self.now.coords.now) (slice j e work.now) × InOrder self.now.coords.now j e work.now × (far_of self.now.coords.now self.now.tolerance leader (get_or work.now j 0) ≡ false) × (near_of self.now.coords.now self.now.tolerance leader (get_or work.now j 0) ≡ false) }
        ensures { (j < result) × (result ≤ e) × PassedOver self.now.coords.now self.now.tolerance leader j result work.now }
    {
        let walk = Walk {
            coords: self.coords,
            work,
            limit: self.tolerance * self.tolerance,
            a: geometry::point3(self.coords, leader),
            b: geometry::point3(self.coords, work[j]),
            from: j,
            end: e,
        };
        let reached = walk.leap();
        walk.land(reached) + 1
    }
}
