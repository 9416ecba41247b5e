// The coordinates of nodes and the tolerance under which they are welded.
ghost use Rattle.std.specs.Prelude.{◌≡◌, false, ◌^◌, ◌<◌};
ghost use Rattle.geometry.specs.Coordinates.{node_count, coordinates_off};

// Accepted coordinates of nodes that a word can number, and the tolerance.
#[derive(Clone, Copy)]
pub struct Space<'a> {
    pub coords: &'a [f64],
    pub tolerance: f64,
    pub ghost sound: { coordinates_off coords.now ≡ false },
    pub ghost few: { node_count coords.now < 2 ^ 32 },
}

impl Space<'_> {
    // How many nodes there are.
    pub fn count(&self) -> usize
        ensures { result ≡ node_count self.now.coords.now }
    {
        self.coords.len() / 3
    }
}
