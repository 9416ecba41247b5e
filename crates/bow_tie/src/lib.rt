// The meeting of two edges, and the bow-tie test of a ring. Each float expression is that of the Rust, in its order.
#![tactic(auto)]

ghost use Rattle.std.specs.Prelude.{◌≡◌, ◌<◌, ◌≤◌, length, get_or};
ghost use Rattle.geometry.specs.Points.{point_at, points_of};
ghost use Rattle.geometry.specs.Nodes.{points_in};
ghost use Rattle.geometry.specs.Steps.{InNodes};
ghost use Rattle.bow_tie.specs.Edges.{place_of, parallel_of, crossing_of, meeting_of, slack_of, on_edge, near, reaches, touch_of, edges_meet};
ghost use Rattle.bow_tie.specs.BowTie.{following, first_and_last, pair_meets, later_meets, bow_tie_of};

use geometry::{Nodes, Point};

const TINY: f64 = 1e-12;

// ---- the meeting of two edges: each has its two ends as arguments, as in the Rust

// How two edges meet (a form that document 01 names): parallel, with the span of the second along the first; crossing, with the parameter on each; or not.
#[derive(Clone, Copy)]
pub enum Meeting {
    Parallel(f64, f64),
    Crossing(f64, f64),
    None,
}

// Where p lies along d from a.
#[tactic(auto, unfolding(crate::specs::Edges::place_of))]
fn place(a: Point, d: Point, dd: f64, p: Point) -> f64
    ensures { result ≡ place_of a d dd p }
{
    geometry::dot(geometry::difference(p, a), d) / dd
}

// The meeting of parallel edges.
#[tactic(auto, unfolding(crate::specs::Edges::parallel_of))]
fn parallel(eps: f64, a: Point, d1: Point, a11: f64, c: Point, d: Point) -> Meeting
    ensures { result ≡ parallel_of eps a d1 a11 c d }
{
    let n = geometry::cross(d1, geometry::difference(a, c));
    if geometry::dot(n, n) / a11 > eps * eps {
        return Meeting::None;
    }
    let tc = place(a, d1, a11, c);
    let td = place(a, d1, a11, d);
    if tc <= td {
        Meeting::Parallel(tc, td)
    } else {
        Meeting::Parallel(td, tc)
    }
}

// The span from lo to hi has a part between -slack and 1 + slack.
#[tactic(auto, using(floats::proofs::Constants::one_bits))]
fn span_reaches(slack: f64, lo: f64, hi: f64) -> bool
    ensures { result ≡ reaches slack lo hi }
{
    let from = hi >= -slack;
    let to = lo <= 1.0 + slack;
    from & to
}

// The meeting of edges that are not parallel.
#[tactic(auto, unfolding(crate::specs::Edges::crossing_of))]
fn crossing(s: f64, t: f64) -> Meeting
    ensures { result ≡ crossing_of s t }
{
    if !span_reaches(TINY, s, s) {
        return Meeting::None;
    }
    if !span_reaches(TINY, t, t) {
        return Meeting::None;
    }
    Meeting::Crossing(s, t)
}

// How the edges a - b and c - d meet.
#[tactic(auto, using(floats::proofs::Constants::zero_bits), unfolding(crate::specs::Edges::meeting_of))]
pub fn meet(a: Point, b: Point, c: Point, d: Point, eps: f64) -> Meeting
    ensures { result ≡ meeting_of eps a b c d }
{
    let d1 = geometry::difference(b, a);
    let d2 = geometry::difference(d, c);
    let r = geometry::difference(a, c);
    let a11 = geometry::dot(d1, d1);
    let a22 = geometry::dot(d2, d2);
    if a11 <= 0.0 {
        return Meeting::None;
    }
    if a22 <= 0.0 {
        return Meeting::None;
    }
    let a12 = geometry::dot(d1, d2);
    let b1 = geometry::dot(d1, r);
    let b2 = geometry::dot(d2, r);
    let denom = a11 * a22 - a12 * a12;
    if denom <= 64.0 * f64::EPSILON * a11 * a22 {
        return parallel(eps, a, d1, a11, c, d);
    }
    crossing((a12 * b2 - a22 * b1) / denom, (a11 * b2 - a12 * b1) / denom)
}

// eps as a part of the length of a - b.
#[tactic(auto, unfolding(crate::specs::Edges::slack_of))]
fn slack(eps: f64, a: Point, b: Point) -> f64
    ensures { result ≡ slack_of eps a b }
{
    eps / floats::larger(
        geometry::size(geometry::difference(b, a)),
        f64::MIN_POSITIVE,
    )
}

// The point at s on the edge from a to b.
#[tactic(auto, unfolding(crate::specs::Edges::on_edge))]
fn on_edge(a: Point, b: Point, s: f64) -> Point
    ensures { result ≡ on_edge a b s }
{
    geometry::plus(a, geometry::times(geometry::difference(b, a), s))
}

// p and q are within eps of each other.
#[tactic(auto, unfolding(crate::specs::Edges::near))]
fn is_near(eps: f64, p: Point, q: Point) -> bool
    ensures { result ≡ near eps p q }
{
    let d = geometry::difference(p, q);
    geometry::dot(d, d) <= eps * eps
}

// The edges, whose meeting is m, share a point.
pub fn touch(a: Point, b: Point, c: Point, d: Point, eps: f64, m: Meeting) -> bool
    ensures { result ≡ touch_of eps a b c d m }
{
    match m {
        Meeting::Parallel(lo, hi) => span_reaches(slack(eps, a, b), lo, hi),
        Meeting::Crossing(s, t) => is_near(eps, on_edge(a, b, s), on_edge(c, d, t)),
        Meeting::None => false,
    }
}

// The edges a - b and c - d share a point, within eps.
#[tactic(auto, unfolding(crate::specs::Edges::edges_meet))]
pub fn segments_intersect3(a: Point, b: Point, c: Point, d: Point, eps: f64) -> bool
    ensures { result ≡ edges_meet eps a b c d }
{
    touch(a, b, c, d, eps, meet(a, b, c, d, eps))
}

// ---- rings that meet themselves

// The end of edge i: corner i + 1, or corner 0.
fn following_at(ring: &Nodes, i: usize) -> Point
    requires { i < length ring.now.nodes.now }
    ensures { result ≡ following (points_in ring.now) i }
{
    ring.point((i + 1) % ring.nodes.len())
}

// Edges i and j are the first and the last of n, which are neighbours.
fn first_and_last(n: usize, i: usize, j: usize) -> bool
    requires { j < n }
    ensures { result ≡ first_and_last n i j }
{
    let first = i == 0;
    let last = j + 1 == n;
    first & last
}

// Edges i, which is a - b, and j meet and are not the first and the last. The ends of i go with it: they are found once for all j.
#[tactic(auto, using(geometry::proofs::Listed::points_length, geometry::proofs::Listed::points_at), unfolding(crate::specs::BowTie::pair_meets))]
fn pair_meets(ring: &Nodes, eps: f64, a: Point, b: Point, i: usize, j: usize) -> bool
    requires { (i < length ring.now.nodes.now) × (j < length ring.now.nodes.now) × (a ≡ point_at ring.now.coords.now (get_or ring.now.nodes.now i 0)) × (b ≡ following (points_in ring.now) i) }
    ensures { result ≡ pair_meets eps (points_in ring.now) i j }
{
    if first_and_last(ring.nodes.len(), i, j) {
        return false;
    }
    segments_intersect3(a, b, ring.point(j), following_at(ring, j), eps)
}

// Edge i meets a later one.
fn later_meets(ring: &Nodes, eps: f64, i: usize) -> bool
    requires { i < length ring.now.nodes.now }
    ensures { result ≡ later_meets eps (points_in ring.now) i }
{
    let a = ring.point(i);
    let b = following_at(ring, i);
    (i + 2..ring.nodes.len()).any(|j| pair_meets(ring, eps, a, b, i, j))
}

// Two edges of the ring that are not neighbours share a point. Coordinates and ring are two arguments, as in the Rust; they are one, `Nodes`,
// within.
#[tactic(auto, using(geometry::proofs::Listed::points_length), unfolding(crate::specs::BowTie::bow_tie_of))]
pub fn face_self_intersects(coords: &[f64], ring: &[u32], tol: f64) -> bool
    requires { InNodes coords.now ring.now × (length ring.now ≤ 64) }
    ensures { result ≡ bow_tie_of tol (points_of coords.now ring.now) }
{
    if ring.len() < 4 {
        return false;
    }
    let corners = Nodes {
        coords,
        nodes: ring,
    };
    let eps = geometry::margin(tol, corners.scale());
    (0..ring.len()).any(|i| later_meets(&corners, eps, i))
}
