// The models that most trials use: cells on the corners of a tetrahedron.
use mesh::{Checks, Kind, Model};

// The corners, a tetrahedron, and a PHED with a face of it in both orders of its nodes.
pub const CORNERS: [f64; 12] = [0.0, 0.0, 0.0, 1.0, 0.0, 0.0, 0.0, 1.0, 0.0, 0.0, 0.0, 1.0];

const KINDS: [u8; 2] = [Kind::Tet4 as u8, Kind::Phed as u8];

const ENDS: [u32; 2] = [4, 11];

const WORDS: [u32; 11] = [0, 1, 2, 3, 0, 1, 2, mesh::SEPARATOR, 2, 1, 0];

// Flags that are refused.
pub const TOO_MANY: Checks = Checks(4);

// The tetrahedron alone.
pub fn tetrahedron(checks: Checks) -> Model<'static> {
    Model {
        coords: &CORNERS,
        kinds: &KINDS[..1],
        ends: &ENDS[..1],
        words: &WORDS[..4],
        tolerance: 0.0,
        checks,
        cap: 0,
    }
}

// Both cells.
pub fn both() -> Model<'static> {
    Model {
        coords: &CORNERS,
        kinds: &KINDS,
        ends: &ENDS,
        words: &WORDS,
        tolerance: 0.0,
        checks: Checks::ALL,
        cap: 0,
    }
}
