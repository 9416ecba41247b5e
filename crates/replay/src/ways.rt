// The check by each way of seeking candidates, and by the one that is less work: the same answer, and the same findings byte for byte.
use crate::lent;
use conformance::Checked;
use full_list::Choice;
use mesh::Model;
use refusals::Refusal;
use seek::Tally;

// As many faces were sought by common nodes in the one as by node triples in the other, and none otherwise.
fn each_way(a: Tally, b: Tally) -> bool {
    (a.nodes == b.triples) & (a.triples == 0) & (b.nodes == 0)
}

// The check by a way.
fn found_by(model: &Model, choice: Choice, findings: &mut [u8]) -> Result<Checked, Refusal> {
    let mut work = [0u32; 16384];
    conformance::check_by(model, choice, findings, &mut work)
}

// What three checks answered, compared: how many faces were sought each way; none where they differ.
fn same_answers(
    less: Result<Checked, Refusal>,
    nodes: Result<Checked, Refusal>,
    triples: Result<Checked, Refusal>,
) -> Option<u64> {
    match (less, nodes, triples) {
        (Ok(l), Ok(n), Ok(t)) => {
            let same = (l.totals == n.totals) & (n.totals == t.totals);
            (same & each_way(n.tally, t.tally)).then_some(n.tally.nodes as u64)
        }
        (Err(l), Err(n), Err(t)) => ((l == n) & (n == t)).then_some(0),
        _ => None,
    }
}

// The check by every way, compared.
fn compared(model: &Model) -> Option<u64> {
    let mut less = [lent::MARK; 32768];
    let mut nodes = [lent::MARK; 32768];
    let mut triples = [lent::MARK; 32768];
    let l = found_by(model, Choice::LessWork, &mut less);
    let n = found_by(model, Choice::ByNodes, &mut nodes);
    let t = found_by(model, Choice::ByTriples, &mut triples);
    let faces = same_answers(l, n, t)?;
    ((less == nodes) & (nodes == triples)).then_some(faces)
}

// A model file, checked by every way: how many faces were sought each way; none where the ways differ. One that is not read has nothing
// to seek.
pub fn by_either(input: &[u8]) -> Option<u64> {
    let mut coords = [0.0; 3072];
    let mut kinds = [0u8; 1024];
    let mut ends = [0u32; 1024];
    let mut words = [0u32; 14336];
    match model_read::read(input, &mut coords, &mut kinds, &mut ends, &mut words) {
        Err(_) => Some(0),
        Ok(f) => compared(&f.model(&coords, &kinds, &ends, &words)?),
    }
}
