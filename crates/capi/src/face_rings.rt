// The rings of a model's faces in two lists, the owners of a face, and where its ring lies in the lists.
ghost use Rattle.mesh.specs.Model.{model_of};
ghost use Rattle.capi.specs.FaceRings.{FillExport, OwnersExport, LookupExport};

use crate::answers;
use mesh::{Checks, Model};

// Fills the first words of both lists with all rings in face order, and says how many words that are.
#[unsafe(no_mangle)]
pub extern "C" fn lenoshale_fill_ring_lists(
    coords: &[f64],
    kinds: &[u8],
    ends: &[u32],
    words: &[u32],
    tolerance: f64,
    flags: u8,
    raw: &mut [u32],
    welded: &mut [u32],
    work: &mut [u32],
    count: &mut u32,
) -> u32
    ensures { FillExport (model_of coords.now kinds.now ends.now words.now tolerance flags 0) raw.old raw.new welded.old welded.new work.old work.new count.old count.new result }
{
    let m = Model {
        coords,
        kinds,
        ends,
        words,
        tolerance,
        checks: Checks(flags),
        cap: 0,
    };
    answers::tell(ring_lists::fill_ring_lists(&m, raw, welded, work), count)
}

// The cells that hold a face's sorted ring, as many as fit, and the whole count.
#[tactic(auto, unfolding(mesh::specs::Lookup::owners_answer))]
#[unsafe(no_mangle)]
pub extern "C" fn lenoshale_face_owners(
    coords: &[f64],
    kinds: &[u8],
    ends: &[u32],
    words: &[u32],
    tolerance: f64,
    flags: u8,
    face: usize,
    owners: &mut [u32],
    count: &mut u32,
) -> u32
    ensures { OwnersExport (model_of coords.now kinds.now ends.now words.now tolerance flags 0) face owners.old owners.new count.old count.new result }
{
    let m = Model {
        coords,
        kinds,
        ends,
        words,
        tolerance,
        checks: Checks(flags),
        cap: 0,
    };
    answers::tell(owners::face_owners(&m, face, owners), count)
}

// The ring of a face is the part of either list that begins at `start` and is `size` words long: C cannot be handed a slice.
#[unsafe(no_mangle)]
pub extern "C" fn lenoshale_ring_lookup(
    coords: &[f64],
    kinds: &[u8],
    ends: &[u32],
    words: &[u32],
    tolerance: f64,
    flags: u8,
    raw: &[u32],
    welded: &[u32],
    face: usize,
    start: &mut u64,
    size: &mut u64,
) -> u32
    ensures { LookupExport (model_of coords.now kinds.now ends.now words.now tolerance flags 0) raw.now welded.now face start.old start.new size.old size.new result }
{
    let model = Model {
        coords,
        kinds,
        ends,
        words,
        tolerance,
        checks: Checks(flags),
        cap: 0,
    };
    // no `if let` and `status`: where the branches join, the kit makes no proof of what holds a model
    match faces::judge_lookup(&model, raw, welded, face) {
        Err(e) => answers::refused(e),
        Ok(m) => {
            let s = faces::find_ring(m.cells(), face);
            *start = s.start as u64;
            *size = (s.end - s.start) as u64;
            0
        }
    }
}
