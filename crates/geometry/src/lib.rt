// Geometry: points by value, their centre, the scale of coordinates, and what is refused of them.
// Each float expression is that of the Rust, in its order.
#![tactic(auto)]

mod nodes;

ghost use Rattle.std.specs.Prelude.{◌≡◌, ◌*◌, ◌+◌, ◌<◌, ◌≤◌, length};
ghost use Rattle.std.specs.Float.Ieee.{lt};
ghost use Rattle.geometry.specs.Points.{point_sub, point_add, point_scale, point_dot, point_cross, length_of, midpoint_of, point_at, points_of, share, centre_of};
ghost use Rattle.geometry.specs.Scale.{largest_of, eps_of};
ghost use Rattle.geometry.specs.Coordinates.{count_off, tolerance_off, coordinate_off, coordinates_off};
ghost use Rattle.geometry.specs.Steps.{InNodes};

pub use nodes::Nodes;

// ---- points

// A point: one value of three coordinates. It goes by value, and its sums and products are functions, no operators: both forms are named by
// document 01. Its default is the origin.
#[derive(Clone, Copy, Default)]
pub struct Point {
    pub x: f64,
    pub y: f64,
    pub z: f64,
}

// `sub3`
#[tactic(auto, unfolding(crate::specs::Points::point_sub))]
pub fn difference(a: Point, b: Point) -> Point
    ensures { result ≡ point_sub a b }
{
    Point {
        x: a.x - b.x,
        y: a.y - b.y,
        z: a.z - b.z,
    }
}

// `add3`
#[tactic(auto, unfolding(crate::specs::Points::point_add))]
pub fn plus(a: Point, b: Point) -> Point
    ensures { result ≡ point_add a b }
{
    Point {
        x: a.x + b.x,
        y: a.y + b.y,
        z: a.z + b.z,
    }
}

// `scale3`
#[tactic(auto, unfolding(crate::specs::Points::point_scale))]
pub fn times(a: Point, s: f64) -> Point
    ensures { result ≡ point_scale a s }
{
    Point {
        x: a.x * s,
        y: a.y * s,
        z: a.z * s,
    }
}

// `dot3v`
#[tactic(auto, unfolding(crate::specs::Points::point_dot))]
pub fn dot(a: Point, b: Point) -> f64
    ensures { result ≡ point_dot a b }
{
    a.x * b.x + a.y * b.y + a.z * b.z
}

// `cross3`
#[tactic(auto, unfolding(crate::specs::Points::point_cross))]
pub fn cross(a: Point, b: Point) -> Point
    ensures { result ≡ point_cross a b }
{
    Point {
        x: a.y * b.z - a.z * b.y,
        y: a.z * b.x - a.x * b.z,
        z: a.x * b.y - a.y * b.x,
    }
}

// The root of a · a.
#[tactic(auto, unfolding(crate::specs::Points::length_of))]
pub fn size(a: Point) -> f64
    ensures { result ≡ length_of a }
{
    floats::sqrt(dot(a, a))
}

// The root of a · a is above e.
#[tactic(auto, unfolding(crate::specs::Points::length_of))]
pub fn longer(a: Point, e: f64) -> bool
    ensures { result ≡ lt e (length_of a) }
{
    floats::root_over(dot(a, a), e)
}

// (a + b) / 2
#[tactic(auto, using(floats::proofs::Constants::two_bits), unfolding(crate::specs::Points::midpoint_of))]
pub fn midpoint(a: Point, b: Point) -> Point
    ensures { result ≡ midpoint_of a b }
{
    Point {
        x: (a.x + b.x) / 2.0,
        y: (a.y + b.y) / 2.0,
        z: (a.z + b.z) / 2.0,
    }
}

// The point of a node.
#[tactic(auto, unfolding(crate::specs::Points::point_at))]
pub fn point3(coords: &[f64], node: u32) -> Point
    requires { node * 3 + 2 < length coords.now }
    ensures { result ≡ point_at coords.now node }
{
    let k = node as usize;
    Point {
        x: coords[k * 3],
        y: coords[k * 3 + 1],
        z: coords[k * 3 + 2],
    }
}

// 1 / n, and 1 where n is 0.
#[tactic(auto, using(crate::proofs::Listed::at_least_one), unfolding(crate::specs::Points::share))]
fn share_of(n: usize) -> f64
    requires { n ≤ 9007199254740992 }
    ensures { result ≡ share n }
{
    1.0 / n.max(1) as f64
}

// The centre of nodes, which the callers hold as two slices: the sum of their points in order, times 1 / n.
#[tactic(auto, using(crate::proofs::Listed::points_length), unfolding(crate::specs::Points::centre_of))]
pub fn key_centroid(coords: &[f64], nodes: &[u32]) -> Point
    requires { InNodes coords.now nodes.now × (length nodes.now ≤ 9007199254740992) }
    ensures { result ≡ centre_of (points_of coords.now nodes.now) }
{
    let mut s = Point::default();
    for node in nodes {
        s = plus(s, point3(coords, *node));
    }
    times(s, share_of(nodes.len()))
}

// ---- scale and eps

// The largest of m and the sizes of p's coordinates.
#[tactic(auto, using(floats::proofs::Small::absolute_is), unfolding(crate::specs::Scale::largest_of))]
fn largest(m: f64, p: Point) -> f64
    ensures { result ≡ largest_of m p }
{
    let mx = floats::larger(m, p.x.abs());
    let my = floats::larger(mx, p.y.abs());
    floats::larger(my, p.z.abs())
}

// eps: the larger of the tolerance and 64 * 2 ^ -52 * scale.
#[tactic(auto, unfolding(crate::specs::Scale::eps_of))]
pub fn margin(tol: f64, scale: f64) -> f64
    ensures { result ≡ eps_of tol scale }
{
    floats::larger(tol, 64.0 * f64::EPSILON * scale)
}

// ---- the reasons of refusals 5, 6 and 7 that look at coordinates and a tolerance

// 5: n coordinates are over the node limit, or no multiple of three.
pub fn count_off(n: usize) -> bool
    ensures { result ≡ count_off n }
{
    let over = 196605 < n;
    let odd = n % 3 != 0;
    over | odd
}

// 6: not finite, or below zero.
#[tactic(auto, using(crate::proofs::Limited::finite_from, floats::proofs::Constants::infinity_bits, floats::proofs::Constants::zero_bits))]
pub fn tolerance_off(tol: f64) -> bool
    ensures { result ≡ tolerance_off tol }
{
    let below = tol < f64::INFINITY;
    let from = 0.0 <= tol;
    !(below & from)
}

// Not finite, or beyond the limit.
#[tactic(auto, using(crate::proofs::Limited::most_bits, crate::proofs::Limited::least_bits))]
pub fn coordinate_off(x: f64) -> bool
    ensures { result ≡ coordinate_off x }
{
    let from = -1000000.0 <= x;
    let to = x <= 1000000.0;
    !(from & to)
}

// 7: some coordinate is off. No early exit: so the loop becomes vector code, which `iter().any`, that ends at the first, does not.
pub fn coordinates_off(coords: &[f64]) -> bool
    ensures { result ≡ coordinates_off coords.now }
{
    let mut off = false;
    for x in coords {
        off |= coordinate_off(*x);
    }
    off
}
