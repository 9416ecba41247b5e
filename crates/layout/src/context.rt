// What the passes over the tables take together.
ghost use Rattle.std.specs.Prelude.{◌≡◌};
ghost use Rattle.geometry.specs.Coordinates.{node_count};

use crate::Layout;

// What the passes of the check over the tables read, and none changes: the coordinates, the tolerance, and where the tables stand. The
// work slice goes beside it: the passes write it, and a struct's facts about words that change would not last. The second index goes beside
// it too: it is built when bow-ties have been sought, and two of the passes have no use for it. That a cell or a face is one of the layout's
// is asked of the number where it is used, as a bound.
#[derive(Clone, Copy)]
pub struct Context<'a> {
    pub coords: &'a [f64],
    pub tolerance: f64,
    pub layout: Layout,
    pub ghost fits: { layout.at.nodes ≡ node_count coords.now },
}
