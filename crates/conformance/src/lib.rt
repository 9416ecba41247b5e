// The check of a model: refused with a number, or all findings counted and the first of them kept.
#![tactic(auto)]

ghost use Rattle.mesh.specs.Lent.{lent};
ghost use Rattle.full_list.specs.declared.Choice.TheVariants.{LessWork};
ghost use Rattle.conformance.specs.Ways.{CheckingBy};

use findings::Totals;
use full_list::Choice;
use mesh::Model;
use refusals::Refusal;

// What the check answers, and how many faces were sought each way. (No generic pair with a tally: as at `full_list::Counts`.)
#[derive(Clone, Copy)]
pub struct Checked {
    pub totals: Totals,
    pub tally: seek::Tally,
}

// The check, its candidates sought by the way that the choice gives, and how many faces were sought by which. Whatever the choice, the
// totals, the findings and the work are the check's.
pub fn check_by(
    model: &Model,
    choice: Choice,
    findings: &mut [u8],
    work: &mut [u32],
) -> Result<Checked, Refusal>
    ensures { CheckingBy choice (lent model.now) findings.old findings.new work.old work.new result }
{
    let m = mesh::accept(model)?;
    let need = m.work_needed();
    if work.len() < need {
        return Err(Refusal::Work);
    }
    let room = (model.cap as usize).min(findings.len() / 64);
    let found = full_list::find(&m, choice, &mut work[..need], &mut findings[..64 * room]);
    work[..need].fill(0);
    Ok(Checked {
        totals: Totals {
            total: found.findings as u64,
            kept: room.min(found.findings) as u64,
        },
        tally: found.tally,
    })
}

// Checks a model: its findings are counted, and the first records kept, as many as the cap and the lent bytes allow. Pairs are sought by
// the way that is less work, as the tally shows. The lent work ends zero, as far as it was needed; a refusal changes nothing.
pub fn check(model: &Model, findings: &mut [u8], work: &mut [u32]) -> Result<Checked, Refusal>
    ensures { CheckingBy LessWork (lent model.now) findings.old findings.new work.old work.new result }
{
    check_by(model, Choice::LessWork, findings, work)
}
