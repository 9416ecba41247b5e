// The tables of a model's faces, read.
ghost use Rattle.std.specs.Prelude.{◌≡◌, ◌+◌, ◌≤◌, ◌<◌, get_or};
ghost use Rattle.index.specs.Faces.{input, cell_of};
ghost use Rattle.layout.specs.Tables.{first_of, key_row, Faced};
ghost use Rattle.layout.specs.Once.{once};

use crate::Layout;
use std::ops::Range;

// The tables as they stand in `work`. A function that writes the work slice takes it and the layout side by side, and makes this of them
// where it reads.
#[derive(Clone, Copy)]
pub struct Tables<'a> {
    pub work: &'a [u32],
    pub layout: &'a Layout,
    pub ghost faced: { Faced layout.now (input layout.now.at work.now) } by { Prim.hlevel once },
}

impl<'a> Tables<'a> {
    ghost use Rattle.layout.specs.Views.{faced_in};

    // Where the ring and the key of face g start, counted in words; for g past the last, where all end.
    pub fn row(&self, g: usize) -> usize
        requires { g ≤ self.now.layout.now.at.faces }
        ensures { (result ≡ get_or (faced_in self.now) (self.now.layout.now.rows + g) 0) × (result ≤ self.now.layout.now.total) }
    {
        crate::number_at(self.work, self.layout.rows + g)
    }

    // The number of the first face of cell c; for c past the last, of all faces.
    pub fn first_face(&self, c: usize) -> usize
        requires { c ≤ self.now.layout.now.at.cell_count }
        ensures { (result ≡ first_of self.now.layout.now (faced_in self.now) c) × (result ≤ self.now.layout.now.at.faces) }
    {
        crate::number_at(self.work, self.layout.firsts + c)
    }

    // The faces of cell c.
    pub fn faces(&self, c: usize) -> Range<usize>
        requires { c < self.now.layout.now.at.cell_count }
        ensures { (result.start ≡ first_of self.now.layout.now (faced_in self.now) c) × (result.end ≡ first_of self.now.layout.now (faced_in self.now) (c + 1)) × (result.end ≤ self.now.layout.now.at.faces) }
    {
        self.first_face(c)..self.first_face(c + 1)
    }

    // The cell of face g.
    pub fn cell_of(&self, g: usize) -> usize
        requires { g < self.now.layout.now.at.faces }
        ensures { (result ≡ cell_of self.now.layout.now.at (faced_in self.now) g) × (result < self.now.layout.now.at.cell_count) }
    {
        crate::number_at(self.work, self.layout.at.cells + g)
    }

    // The key of face g, its ring sorted.
    pub fn key(&self, g: usize) -> &'a [u32]
        requires { g < self.now.layout.now.at.faces }
        ensures { result.now ≡ key_row self.now.layout.now (faced_in self.now) g }
    {
        let k = self.layout.keys;
        &self.work[k + self.row(g)..k + self.row(g + 1)]
    }
}
