// An accepted model, and its cells.
ghost use Rattle.std.specs.Prelude.{◌≡◌, ◌+◌, ◌≤◌, length, false};
ghost use Rattle.laws.specs.Lists.{any, each};
ghost use Rattle.laws.specs.Limits.{cell_limit, word_limit};
ghost use Rattle.mesh.specs.Kinds.{kind_number};
ghost use Rattle.mesh.specs.Lent.{lent, raw_rest};
ghost use Rattle.mesh.specs.Acceptance.{model_refusal};
ghost use Rattle.mesh.specs.Steps.{cell_with, is_ill, WellCell, Tallied};

use crate::{CellTally, Kind, Model, RawCells};

// A model that is accepted, with its faces and ring words.
#[derive(Clone, Copy)]
pub struct Accepted<'a> {
    pub model: Model<'a>,
    pub faces: usize,
    pub ring_words: usize,
    ghost accepted: { model_refusal (lent model) ≡ 0 },
    ghost tallied: { Tallied (lent model) faces ring_words },
}

impl<'a> Accepted<'a> {
    ghost use Rattle.mesh.specs.Model.{cells_of};
    ghost use Rattle.mesh.specs.Acceptance.{work_needed};
    ghost use Rattle.mesh.specs.CellsRest.{cells_rest};

    // 8R + 4F + 8C + 4N + 4M + 16. Each operation compares it with the work that it was lent in its own place among its refusals, in one
    // line: a method that refuses would hide the order, which the papers give.
    pub fn work_needed(&self) -> usize
        ensures { result ≡ work_needed (lent self.now.model) }
    {
        let m = self.model;
        8 * self.ring_words
            + 4 * self.faces
            + 8 * m.kinds.len()
            + 4 * m.node_count()
            + 4 * m.words.len()
            + 16
    }

    // The cells in order.
    pub fn cells(&self) -> Cells<'a>
        ensures { cells_rest result ≡ cells_of (lent self.now.model) }
    {
        Cells {
            left: self.model.raw_cells(),
        }
    }
}

// A cell of an accepted model.
#[derive(Clone, Copy)]
pub struct Cell<'a> {
    pub kind: Kind,
    pub words: &'a [u32],
    ghost well: { WellCell (cell_with (kind_number kind) words.now) },
    ghost small: { length words.now ≤ word_limit },
}

impl Cell<'_> {
    ghost use Rattle.mesh.specs.Rings.{rings_of};
    ghost use Rattle.mesh.specs.Steps.{ring_total};
    ghost use Rattle.mesh.specs.CellsRest.{cell_raw};

    // Its faces and ring words.
    pub fn tally(&self) -> CellTally
        ensures faces { (result.faces ≡ length (rings_of (cell_raw self.now))) × (result.faces ≤ 6 + length self.now.words.now) }
        ensures words { (result.words ≡ ring_total (rings_of (cell_raw self.now))) × (result.words ≤ 24 + length self.now.words.now) }
    {
        crate::tally_kind(self.kind, self.words).unwrap()
    }
}

// The cells that are left, one by one.
#[derive(Clone, Copy)]
pub struct Cells<'a> {
    pub left: RawCells<'a>,
    ghost well: { any is_ill (raw_rest left) ≡ false },
    ghost few: { length (raw_rest left) ≤ cell_limit },
    ghost small: { length (each (λ c. c.words) (raw_rest left)) ≤ word_limit },
}

impl<'a> Iterator for Cells<'a> {
    ghost use Rattle.std.specs.Iterator.{YieldsFirstBy, item_count};
    ghost use Rattle.mesh.specs.CellsRest.{cell_raw, cells_rest};

    type Item = Cell<'a>;

    ghost next_gives = { YieldsFirstBy cell_raw cells_rest };

    ghost remaining = { item_count cells_rest };

    fn next(&mut self) -> Option<Cell<'a>> {
        let raw = self.left.next()?;
        let kind = Kind::try_from(raw.kind).unwrap();
        Some(Cell {
            kind,
            words: raw.words,
        })
    }
}
