// The rings of a model's faces, read while only the tables below the marks of bow-ties stand.
ghost use Rattle.std.specs.Prelude.{◌≡◌, ◌+◌, ◌≤◌, ◌<◌, get_or, take};
ghost use Rattle.layout.specs.Tables.{first_of, ring_row, Ringed};
ghost use Rattle.layout.specs.Once.{once};

use crate::Layout;
use std::ops::Range;

// The tables below the marks of bow-ties as they stand in `work`, and no more. Apart from `Tables`, which has a fact about all tables: what
// each says is about other words, and the methods that both have read a word by one function.
#[derive(Clone, Copy)]
pub struct Rings<'a> {
    pub work: &'a [u32],
    pub layout: &'a Layout,
    pub ghost ringed: { Ringed layout.now (take layout.now.at.bows work.now) } by { Prim.hlevel once },
}

impl<'a> Rings<'a> {
    ghost use Rattle.layout.specs.Views.{ringed_in};

    // Where the ring of face g starts, counted in words; for g past the last, where all end.
    pub fn row(&self, g: usize) -> usize
        requires { g ≤ self.now.layout.now.at.faces }
        ensures { (result ≡ get_or (ringed_in self.now) (self.now.layout.now.rows + g) 0) × (result ≤ self.now.layout.now.total) }
    {
        crate::number_at(self.work, self.layout.rows + g)
    }

    // The number of the first face of cell c; for c past the last, of all faces.
    pub fn first_face(&self, c: usize) -> usize
        requires { c ≤ self.now.layout.now.at.cell_count }
        ensures { (result ≡ first_of self.now.layout.now (ringed_in self.now) c) × (result ≤ self.now.layout.now.at.faces) }
    {
        crate::number_at(self.work, self.layout.firsts + c)
    }

    // The faces of cell c.
    pub fn faces(&self, c: usize) -> Range<usize>
        requires { c < self.now.layout.now.at.cell_count }
        ensures { (result.start ≡ first_of self.now.layout.now (ringed_in self.now) c) × (result.end ≡ first_of self.now.layout.now (ringed_in self.now) (c + 1)) × (result.end ≤ self.now.layout.now.at.faces) }
    {
        self.first_face(c)..self.first_face(c + 1)
    }

    // The ring of face g.
    pub fn ring(&self, g: usize) -> &'a [u32]
        requires { g < self.now.layout.now.at.faces }
        ensures { result.now ≡ ring_row self.now.layout.now (ringed_in self.now) g }
    {
        let k = self.layout.rings;
        &self.work[k + self.row(g)..k + self.row(g + 1)]
    }
}
