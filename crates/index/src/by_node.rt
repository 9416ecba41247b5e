// The faces by node, read.
ghost use Rattle.std.specs.Prelude.{◌≡◌, ◌+◌, ◌-◌, ◌≤◌, ◌<◌, length, get_or};
ghost use Rattle.counting.specs.Counts.{times, below};
ghost use Rattle.index.specs.Once.{once};
ghost use Rattle.index.specs.Faces.{base, start_of, words_of, Indexed};

use crate::Places;
use std::ops::Range;

// The node sets of the faces and their index, as they stand in `base`.
#[derive(Clone, Copy)]
pub struct Index<'a> {
    pub base: &'a [u32],
    pub at: Places,
    pub ghost indexed: { Indexed at base.now } by { Prim.hlevel once },
}

impl<'a> Index<'a> {
    ghost use Rattle.index.specs.Read.{input_of, set_of, is_bow};

    // The index that stands in a work slice, below `found`.
    pub fn new(work: &'a [u32], at: Places) -> Index<'a>
        requires { (at.found ≤ length work.now) × Indexed at (base at work.now) }
        ensures { (result.base.now ≡ base at work.now) × (result.at ≡ at) }
    {
        Index {
            base: &work[..at.found],
            at,
        }
    }

    // How far the place in word k lies before that in the next word.
    fn span(&self, k: usize) -> usize
        requires { (k + 1 < length self.now.base.now) × (get_or self.now.base.now k 0 ≤ get_or self.now.base.now (k + 1) 0) }
        ensures { result ≡ get_or self.now.base.now (k + 1) 0 - get_or self.now.base.now k 0 }
    {
        self.base[k + 1] as usize - self.base[k] as usize
    }

    // Where the node set of face g starts.
    pub fn set_start(&self, g: usize) -> usize
        requires { g < self.now.at.faces }
        ensures { result ≡ self.now.at.sets + start_of self.now.at (input_of self.now) g }
    {
        let at = self.at;
        at.sets + self.base[at.starts + g] as usize
    }

    // How many nodes it has.
    pub fn set_size(&self, g: usize) -> usize
        requires { g < self.now.at.faces }
        ensures { result ≡ length (set_of self.now g) }
    {
        self.span(self.at.starts + g)
    }

    // The node set of face g.
    pub fn set(&self, g: usize) -> &'a [u32]
        requires { g < self.now.at.faces }
        ensures { result.now ≡ set_of self.now g }
    {
        let s = self.set_start(g);
        &self.base[s..s + self.set_size(g)]
    }

    // The cell of face g is a bow-tie.
    pub fn bow_at(&self, g: usize) -> bool
        requires { g < self.now.at.faces }
        ensures { result ≡ is_bow self.now g }
    {
        let c = self.base[self.at.cells + g] as usize;
        self.base[self.at.bows + c] != 0
    }

    // How many faces have node v.
    pub fn list_length(&self, v: usize) -> usize
        requires { v < self.now.at.nodes }
        ensures { result ≡ times v (words_of self.now.at (input_of self.now)) }
    {
        self.span(self.at.offsets + v)
    }

    // Where they stand.
    pub fn list(&self, v: usize) -> Range<usize>
        requires { v < self.now.at.nodes }
        ensures { (result.start ≡ self.now.at.index + below v (words_of self.now.at (input_of self.now)))
            × (result.end ≡ result.start + times v (words_of self.now.at (input_of self.now))) }
    {
        let k = self.at.offsets + v;
        self.at.index + self.base[k] as usize..self.at.index + self.base[k + 1] as usize
    }
}
