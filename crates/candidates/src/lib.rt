// The candidates of one face of a model, by common nodes or by node triples, as the check seeks them for each face. What is found is the
// definition's list whichever way is asked for, and the search itself tells which was taken.
#![tactic(auto)]

ghost use Rattle.std.specs.Prelude.{◌≡◌, ◌^◌, ◌≤◌, ◌<◌, length, take};
ghost use Rattle.std.proofs.lemmas.List.Edits.{sets};
ghost use Rattle.mesh.specs.Lent.{lent};
ghost use Rattle.mesh.specs.Acceptance.{faces_in, work_needed};
ghost use Rattle.seek.specs.Candidates.{by_nodes, found_in, went_by_nodes};
ghost use Rattle.candidates.specs.Seeking.{candidates_of, Seeking};

use mesh::{Accepted, Model};
use refusals::Refusal;
use seek::{Searched, Tally, Way};

// How many candidates a face has, and by which way they were sought. (No generic pair with a tally: as at `full_list::Counts`.)
#[derive(Clone, Copy)]
pub struct SoughtFace {
    pub count: u32,
    pub tally: Tally,
}

// The candidates of a face of an accepted model, as many as fit; answers how many there are, and the way.
fn seek_into(
    model: &Accepted,
    face: usize,
    way: Way,
    found: &mut [u32],
    work: &mut [u32],
) -> Searched
    requires room { work_needed (lent model.now.model) ≤ length work.old }
    requires face_in_bounds { face < length (faces_in (lent model.now.model)) }
    ensures result_value { (found_in result ≡ length (candidates_of (lent model.now.model) face)) × (found_in result < 2 ^ 32) × (went_by_nodes result ≡ by_nodes way) }
    ensures found_after { found.new ≡ sets found.old 0 (take (length found.old) (candidates_of (lent model.now.model) face)) }
{
    let l = model_tables::build_tables(model, work);
    let by = indexes::index_faces(work, l).by;
    let c = pairs::candidates_of(work, l.at, by, face, 0, way);
    let k = c.count.min(found.len());
    found[..k].copy_from_slice(&work[l.at.found..l.at.found + k]);
    c
}

// The candidates of a face, sought by common nodes or by node triples: as many as fit, and the whole count.
pub fn face_candidates(
    model: &Model,
    face: usize,
    way: Way,
    found: &mut [u32],
    work: &mut [u32],
) -> Result<SoughtFace, Refusal>
    ensures { Seeking (by_nodes way) (lent model.now) face found.old found.new work.old work.new result }
{
    let m = mesh::accept(model)?;
    let need = m.work_needed();
    if work.len() < need {
        return Err(Refusal::Work);
    }
    if m.faces <= face {
        return Err(Refusal::Number);
    }
    let searched = seek_into(&m, face, way, found, &mut work[..need]);
    work[..need].fill(0);
    Ok(SoughtFace {
        count: searched.count as u32,
        tally: searched.tallied(Tally::default()),
    })
}
