// The area test: do nodes span an area? Differences, dots and crosses are the Rust's expressions, in its order. Its roots are found once for
// the extent, of the largest square, and elsewhere only where squares do not decide; the contracts say that the answer is the same.
#![tactic(auto)]

ghost use Rattle.std.specs.Prelude.{◌≡◌, ◌*◌, ◌+◌, ◌<◌, [], ◌∷◌, length, MatchOption};
ghost use Rattle.std.specs.Float.Ieee.{lt};
ghost use Rattle.floats.specs.Floats.{larger_of};
ghost use Rattle.refusals.specs.Told.{told};
ghost use Rattle.geometry.specs.Points.{point_sub, point_dot, point_cross, length_of, point_at, points_of};
ghost use Rattle.geometry.specs.Nodes.{points_in};
ghost use Rattle.geometry.specs.Steps.{InNodes};
ghost use Rattle.area.specs.AreaTest.{extent_of, direction_of, thick_of, area_number, area_of, is_spans, list_off, area_answer};
ghost use Rattle.area.specs.Steps.{away_from, most_of};

use geometry::{Nodes, Point};
use refusals::Refusal;

// What the area test says of a list of nodes.
#[derive(Clone, Copy, Debug, PartialEq, Eq)]
pub enum Area {
    TooFew,
    Together,
    NoDirection,
    Thin,
    Spans,
}

// The number of what the test says.
impl From<Area> for u32 {
    ghost from_gives = { λ area number. number ≡ area_number area };

    fn from(area: Area) -> u32 {
        area as u32
    }
}

// ---- differences from the first node, of the nodes after it

// The larger of m and d · d.
fn reach(m: f64, d: Point) -> f64
    ensures { result ≡ larger_of m (point_dot d d) }
{
    floats::larger(m, geometry::dot(d, d))
}

// |dir × d| is above the bound.
fn thick_at(bound: f64, dir: Point, d: Point) -> bool
    ensures { result ≡ lt bound (length_of (point_cross dir d)) }
{
    geometry::longer(geometry::cross(dir, d), bound)
}

// The differences of nodes from a point.
#[derive(Clone, Copy)]
struct Differences<'a> {
    rest: Nodes<'a>,
    from: Point,
}

impl Differences<'_> {
    // That of a node.
    fn of(&self, node: u32) -> Point
        requires { node * 3 + 2 < length self.now.rest.coords.now }
        ensures { result ≡ point_sub (point_at self.now.rest.coords.now node) self.now.from }
    {
        geometry::difference(geometry::point3(self.rest.coords, node), self.from)
    }

    // The largest d · d.
    fn most(&self) -> f64
        ensures { result ≡ most_of (away_from self.now.from (points_in self.now.rest)) }
    {
        let mut m = 0.0;
        for node in self.rest.nodes {
            m = reach(m, self.of(*node));
        }
        m
    }

    // The largest length: the root grows with d · d, so one root is enough.
    #[tactic(auto, using(crate::proofs::OneRoot::extent_root))]
    fn extent(&self) -> f64
        ensures { result ≡ extent_of (away_from self.now.from (points_in self.now.rest)) }
    {
        floats::sqrt(self.most())
    }

    // The first that is longer than eps.
    fn direction(&self, eps: f64) -> Option<Point>
        ensures { MatchOption result (direction_of eps (away_from self.now.from (points_in self.now.rest)) ≡ []) (λ d. direction_of eps (away_from self.now.from (points_in self.now.rest)) ≡ d ∷ []) }
    {
        for node in self.rest.nodes {
            let d = self.of(*node);
            if geometry::longer(d, eps) {
                return Some(d);
            }
        }
        None
    }

    // Some difference is thick.
    fn thick(&self, dir: Point, bound: f64) -> bool
        ensures { result ≡ thick_of bound dir (away_from self.now.from (points_in self.now.rest)) }
    {
        for node in self.rest.nodes {
            let d = self.of(*node);
            if thick_at(bound, dir, d) {
                return true;
            }
        }
        false
    }
}

// ---- the test, on nodes that are known to be good

// What the test says, with its reason. Coordinates and nodes are two arguments, as in the Rust; they are one, `Nodes`, within.
#[tactic(auto, using(geometry::proofs::Listed::points_length, crate::proofs::Judged::differences), unfolding(crate::specs::AreaTest::area_of, crate::specs::AreaTest::spread_of))]
pub fn area_of(coords: &[f64], nodes: &[u32], tol: f64) -> Area
    requires { InNodes coords.now nodes.now }
    ensures { result ≡ area_of tol (points_of coords.now nodes.now) }
{
    if nodes.len() < 3 {
        return Area::TooFew;
    }
    let all = Nodes { coords, nodes };
    let eps = geometry::margin(tol, all.scale());
    let o = all.point(0);
    let rest = Nodes {
        coords,
        nodes: &nodes[1..],
    };
    let differences = Differences { rest, from: o };
    let far = differences.extent();
    if far <= eps {
        return Area::Together;
    }
    match differences.direction(eps) {
        Some(dir) => {
            if differences.thick(dir, eps * far) {
                Area::Spans
            } else {
                Area::Thin
            }
        }
        None => Area::NoDirection,
    }
}

// The nodes span an area.
pub fn common_nodes_span_area(coords: &[f64], nodes: &[u32], tol: f64) -> bool
    requires { InNodes coords.now nodes.now }
    ensures { result ≡ is_spans (area_of tol (points_of coords.now nodes.now)) }
{
    area_of(coords, nodes, tol) == Area::Spans
}

// ---- the public operation

// 12: the list is not strictly ascending, or a number is n or more.
fn list_off(n: usize, nodes: &[u32]) -> bool
    ensures { result ≡ list_off n nodes.now }
{
    let mut next: usize = 0;
    for node in nodes {
        let k = *node as usize;
        if k < next {
            return true;
        }
        if n <= k {
            return true;
        }
        next = k + 1;
    }
    false
}

// The area test, for any lists and any tolerance.
pub fn area_test(coords: &[f64], nodes: &[u32], tol: f64) -> Result<Area, Refusal>
    ensures { told result ≡ area_answer coords.now nodes.now tol }
{
    if geometry::count_off(coords.len()) {
        return Err(Refusal::Shape);
    }
    if 64 < nodes.len() {
        return Err(Refusal::Shape);
    }
    if geometry::tolerance_off(tol) {
        return Err(Refusal::Tolerance);
    }
    if geometry::coordinates_off(coords) {
        return Err(Refusal::Coordinate);
    }
    if list_off(coords.len() / 3, nodes) {
        return Err(Refusal::Number);
    }
    Ok(area_of(coords, nodes, tol))
}
