// Filling the two ring lists of a model, raw and welded.
#![tactic(auto)]

ghost use Rattle.std.specs.Prelude.{◌≤◌, length};
ghost use Rattle.mesh.specs.Lent.{lent};
ghost use Rattle.mesh.specs.Acceptance.{work_needed};
ghost use Rattle.ring_lists.specs.Filling.{raw_rings, Filling};
ghost use Rattle.ring_lists.specs.Steps.{Stored};

use mesh::{Accepted, Model};
use refusals::Refusal;

// The lists of an accepted model, with room for them; the words of work that it needs end zero.
fn store(accepted: &Accepted, raw: &mut [u32], welded: &mut [u32], work: &mut [u32])
    requires work_in_bounds { work_needed (lent accepted.now.model) ≤ length work.old }
    requires raw_in_bounds { length (raw_rings (lent accepted.now.model)) ≤ length raw.old }
    requires welded_in_bounds { length (raw_rings (lent accepted.now.model)) ≤ length welded.old }
    ensures { Stored (lent accepted.now.model) raw.old raw.new welded.old welded.new work.old work.new }
{
    let m = accepted.model;
    let n = m.node_count();
    let r = rings::put_cells(accepted, raw, 0);
    welding::weld_named(&m, work);
    welding::put_welded(&raw[..r], &work[n + n..n + n + n], welded);
    work[..accepted.work_needed()].fill(0);
}

// Fills the first words of both lists with all rings in face order; answers how many words each list now holds.
pub fn fill_ring_lists(
    model: &Model,
    raw: &mut [u32],
    welded: &mut [u32],
    work: &mut [u32],
) -> Result<u32, Refusal>
    ensures { Filling (lent model.now) raw.old raw.new welded.old welded.new work.old work.new result }
{
    let accepted = mesh::accept(model)?;
    if work.len() < accepted.work_needed() {
        return Err(Refusal::Work);
    }
    if raw.len() < accepted.ring_words {
        return Err(Refusal::Room);
    }
    if welded.len() < accepted.ring_words {
        return Err(Refusal::Room);
    }
    store(&accepted, raw, welded, work);
    Ok(accepted.ring_words as u32)
}
