// A model in lent lists, and its cells as they stand there.
ghost use Rattle.std.specs.Prelude.{◌≡◌, ◌+◌, length, false};
ghost use Rattle.mesh.specs.Acceptance.{ends_off};

use crate::Checks;

// Node coordinates, three a node; for each cell a kind and the place after its last word; all words; tolerance, check flags and cap.
#[derive(Clone, Copy)]
pub struct Model<'a> {
    pub coords: &'a [f64],
    pub kinds: &'a [u8],
    pub ends: &'a [u32],
    pub words: &'a [u32],
    pub tolerance: f64,
    pub checks: Checks,
    pub cap: u16,
}

impl<'a> Model<'a> {
    ghost use Rattle.mesh.specs.Lent.{raw_rest, lent};
    ghost use Rattle.mesh.specs.Model.{cells_of};
    ghost use Rattle.geometry.specs.Coordinates.{node_count};

    pub fn node_count(&self) -> usize
        ensures { result ≡ node_count self.now.coords.now }
    {
        self.coords.len() / 3
    }

    // The cells in order. They need not be judged, but the lists fit together.
    pub fn raw_cells(&self) -> RawCells<'a>
        requires { (length self.now.kinds.now ≡ length self.now.ends.now) × (ends_off 0 self.now.ends.now (length self.now.words.now) ≡ false) }
        ensures at { result.at ≡ 0 }
        ensures kinds { result.kinds.now ≡ self.now.kinds.now }
        ensures ends { result.ends.now ≡ self.now.ends.now }
        ensures words { result.words.now ≡ self.now.words.now }
    {
        RawCells {
            at: 0,
            kinds: self.kinds,
            ends: self.ends,
            words: self.words,
        }
    }
}

// What a model says of a cell; the kind may be any number.
#[derive(Clone, Copy)]
pub struct RawCell<'a> {
    pub kind: u8,
    pub words: &'a [u32],
}

// The cells that are left, one by one; `at` words stand before theirs.
#[derive(Clone, Copy)]
pub struct RawCells<'a> {
    pub at: usize,
    pub kinds: &'a [u8],
    pub ends: &'a [u32],
    pub words: &'a [u32],
    ghost paired: { length kinds.now ≡ length ends.now },
    ghost ordered: { ends_off at ends.now (at + length words.now) ≡ false },
}

impl<'a> Iterator for RawCells<'a> {
    ghost use Rattle.std.specs.Iterator.{YieldsFirstBy, item_count};
    ghost use Rattle.mesh.specs.Lent.{raw, raw_rest};

    type Item = RawCell<'a>;

    ghost next_gives = { YieldsFirstBy raw raw_rest };

    ghost remaining = { item_count raw_rest };

    fn next(&mut self) -> Option<RawCell<'a>> {
        let (kind, kinds) = self.kinds.split_first()?;
        let (end, ends) = self.ends.split_first()?;
        let at = *end as usize;
        let (words, left) = self.words.split_at(at - self.at);
        *self = RawCells {
            at,
            kinds,
            ends,
            words: left,
        };
        Some(RawCell { kind: *kind, words })
    }
}
