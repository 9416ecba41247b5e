// Where the tables of a model's faces, the index and the scratch of the check stand in its one lent work slice.
#![tactic(auto)]

ghost use Rattle.std.specs.Prelude.{◌≡◌, ◌<◌, length, get_or};

mod context; // what the passes over the tables take together
mod rings; // the tables read while only those below the marks of bow-ties stand
mod tables; // the tables read

pub use context::Context;
pub use rings::Rings;
pub use tables::Tables;

// The regions in their order, with the words of each: weld (nodes), rings (total), rows (faces + 1), firsts (cells + 1), then of the
// pair search bows (cells) and cells (faces), keys (total), and again of the search starts, sets, offsets, index; second (the second
// index), and found; behind them marks and others (cells each), last (nodes), pairs and spare (2 * words each). A face's ring and its key
// start at the same row. The scratch is no struct of its own, as repeats::Regions is: Regions needs other places (nodes and weld, not marks
// and others), so its three of these five fields would still be copied one by one.
#[derive(Clone, Copy)]
pub struct Layout {
    pub at: index::Places,
    pub total: usize,
    pub words: usize,
    pub weld: usize,
    pub rings: usize,
    pub keys: usize,
    pub rows: usize,
    pub firsts: usize,
    pub second: usize,
    pub marks: usize,
    pub others: usize,
    pub last: usize,
    pub pairs: usize,
    pub spare: usize,
}

// The number that a word of the tables holds.
fn number_at(work: &[u32], place: usize) -> usize
    requires { place < length work.now }
    ensures { result ≡ get_or work.now place 0 }
{
    work[place] as usize
}
