// The kinds of cells.
ghost use Rattle.std.specs.Prelude.{◌≡◌};
ghost use Rattle.mesh.specs.Kinds.{kind_number, KindRead};

use refusals::Refusal;

// In the order of `ElementType`, under the numbers of a model's list of kinds.
#[derive(Clone, Copy, Debug, PartialEq, Eq)]
pub enum Kind {
    Tet4 = 1,
    Hex8 = 2,
    Wedge6 = 3,
    Phed = 4,
}

impl From<Kind> for u8 {
    ghost from_gives = { λ kind number. number ≡ kind_number kind };

    fn from(kind: Kind) -> u8 {
        kind as u8
    }
}

impl TryFrom<u8> for Kind {
    type Error = Refusal;

    ghost try_from_gives = { KindRead };

    fn try_from(kind: u8) -> Result<Kind, Refusal> {
        match kind {
            1 => Ok(Kind::Tet4),
            2 => Ok(Kind::Hex8),
            3 => Ok(Kind::Wedge6),
            4 => Ok(Kind::Phed),
            _ => Err(Refusal::Cell),
        }
    }
}
