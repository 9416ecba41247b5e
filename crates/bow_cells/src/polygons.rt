// The rings of the faces with the coordinates of their nodes.
ghost use Rattle.std.specs.Prelude.{◌≡◌, map, ◌<◌, ◌≤◌, length};
ghost use Rattle.std.proofs.lemmas.List.Edits.{sets};
ghost use Rattle.laws.specs.Lists.{up_from};
ghost use Rattle.geometry.specs.Coordinates.{node_count};

use layout::Rings;

// The rings of the faces, each node with its coordinates, and the tolerance to which points are alike.
#[derive(Clone, Copy)]
pub struct Polygons<'a> {
    pub rings: Rings<'a>,
    pub coords: &'a [f64],
    pub tolerance: f64,
    ghost fits: { rings.layout.now.at.nodes ≡ node_count coords.now },
}

impl Polygons<'_> {
    ghost use Rattle.layout.specs.ByCell.{ring_bow, cell_bow, bit};
    ghost use Rattle.layout.specs.Views.{ringed_in};

    // The ring of face g, in welded numbers, meets itself.
    fn ring_meets(&self, g: usize) -> bool
        requires { g < self.now.rings.layout.now.at.faces }
        ensures { result ≡ ring_bow self.now.coords.now self.now.tolerance self.now.rings.layout.now (ringed_in self.now.rings) g }
    {
        let l = self.rings.layout;
        let face = self.rings.ring(g);
        let mut ring = [0u32; 64];
        let welds = &self.rings.work[l.weld..l.weld + l.at.nodes];
        welding::put_welded(face, welds, &mut ring);
        bow_tie::face_self_intersects(self.coords, &ring[..face.len()], self.tolerance)
    }

    // Some ring of cell c meets itself.
    fn cell_meets(&self, c: usize) -> bool
        requires { c < self.now.rings.layout.now.at.cell_count }
        ensures { result ≡ cell_bow self.now.coords.now self.now.tolerance self.now.rings.layout.now (ringed_in self.now.rings) c }
    {
        self.rings.faces(c).any(|g| self.ring_meets(g))
    }

    // The mark of each cell, 1 where some ring of it meets itself and 0 where none does, goes to the front.
    pub fn mark_cells(&self, marks: &mut [u32])
        requires { self.now.rings.layout.now.at.cell_count ≤ length marks.old }
        ensures { marks.new ≡ sets marks.old 0 (map (λ c. bit (cell_bow self.now.coords.now self.now.tolerance self.now.rings.layout.now (ringed_in self.now.rings) c)) (up_from 0 self.now.rings.layout.now.at.cell_count)) }
    {
        let cells = self.rings.layout.at.cell_count;
        for (c, mark) in marks[..cells].iter_mut().enumerate() {
            *mark = u32::from(self.cell_meets(c));
        }
    }
}
