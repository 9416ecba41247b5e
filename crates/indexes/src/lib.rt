// Both indexes of the faces, built on tables that stand, and which search is less work.
#![tactic(auto)]

ghost use Rattle.std.specs.Prelude.{◌≡◌};
ghost use Rattle.index.specs.Faces.{input, base};
ghost use Rattle.seek.specs.Candidates.{by_nodes};
ghost use Rattle.triple_keys.specs.Keys.{Keyed};
ghost use Rattle.pairs.specs.Work.{is_by_nodes};
ghost use Rattle.layout.specs.Tables.{Standing};
ghost use Rattle.layout.specs.Shown.{Tabled};

// How candidates are sought: the way that is less work, and the second index.
#[derive(Clone, Copy)]
pub struct Search {
    pub way: seek::Way,
    pub by: index::Places,
}

// Builds the index of the faces by node, and the second one.
pub fn index_faces(work: &mut [u32], l: layout::Layout) -> Search
    requires { Tabled l work.old }
    ensures way_value { by_nodes result.way ≡ is_by_nodes l.at (input l.at work.old) }
    ensures standing { Standing l work.new × Keyed l.at result.by (base l.at work.new) }
    ensures work_unchanged { input l.at work.new ≡ input l.at work.old }
{
    let at = l.at;
    let way = pairs::prepare(work, at);
    let by = triple_keys::index_keys(work, at, l.second, l.total + 1);
    Search { way, by }
}
