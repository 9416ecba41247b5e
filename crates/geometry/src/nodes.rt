// Numbers of nodes beside the coordinates: a ghost field keeps that each is a node's, so its methods do not ask for it.
ghost use Rattle.std.specs.Prelude.{◌≡◌, ◌<◌, length, get_or};
ghost use Rattle.geometry.specs.Steps.{InNodes};

// Numbers of nodes, each within the coordinates.
#[derive(Clone, Copy)]
pub struct Nodes<'a> {
    pub coords: &'a [f64],
    pub nodes: &'a [u32],
    pub ghost in_nodes: { InNodes coords.now nodes.now },
}

impl Nodes<'_> {
    ghost use Rattle.geometry.specs.Points.{point_at};
    ghost use Rattle.geometry.specs.Nodes.{points_in};
    ghost use Rattle.geometry.specs.Scale.{scale_of};

    // The point of the node at place i.
    pub fn point(&self, i: usize) -> crate::Point
        requires { i < length self.now.nodes.now }
        ensures { result ≡ point_at self.now.coords.now (get_or self.now.nodes.now i 0) }
    {
        crate::point3(self.coords, self.nodes[i])
    }

    // The largest of 1 and all |coordinate| of the nodes.
    pub fn scale(&self) -> f64
        ensures { result ≡ scale_of (points_in self.now) }
    {
        let mut m = 1.0;
        for node in self.nodes {
            m = crate::largest(m, crate::point3(self.coords, *node));
        }
        m
    }
}
