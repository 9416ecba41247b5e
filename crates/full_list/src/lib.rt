// All findings of an accepted model, in the order of the full list.
#![tactic(auto)]

ghost use Rattle.std.specs.Prelude.{◌≡◌, ◌+◌, ◌^◌, ◌≤◌, length};
ghost use Rattle.mesh.specs.Lent.{lent};
ghost use Rattle.mesh.specs.Acceptance.{faces_in, work_needed};
ghost use Rattle.findings.specs.Rules.{full_of};
ghost use Rattle.seek.specs.Candidates.{by_nodes, Tallied};
ghost use Rattle.layout.specs.Views.{faced_in};
ghost use Rattle.all_cells.specs.Cells.{KeptEver};
ghost use Rattle.full_list.specs.Ways.{taken, goes_by_nodes, sought_in};
ghost use Rattle.full_list.specs.Found.{Ready, topology_of, butterflies_in, KeptBy, FoundIn};

use layout::{Context, Layout, Tables};
use mesh::{Accepted, Checks};
use records::Sink;
use seek::{Tally, Way};

// How many findings there are, and how many faces were sought each way. No generic pair with a tally, for this, `conformance::Checked` and
// `candidates::SoughtFace`: what stands beside it would lose its name, which says what is counted.
#[derive(Clone, Copy)]
pub struct Counts {
    pub findings: usize,
    pub tally: Tally,
}

// Which way candidates are sought: the one that is less work, as the check does, or one of the two. No Option of a way: the promise of
// the check names the first (`CheckingBy LessWork`), which None would not say.
#[derive(Clone, Copy)]
pub enum Choice {
    LessWork,
    ByNodes,
    ByTriples,
}

impl Choice {
    // The way that is taken, where `less` is less work.
    fn way(self, less: Way) -> Way
        ensures { by_nodes result ≡ taken self (by_nodes less) }
    {
        match self {
            Choice::LessWork => less,
            Choice::ByNodes => Way::ByNodes,
            Choice::ByTriples => Way::ByTriples,
        }
    }
}

// Kind 1, where the flags ask for it.
fn find_butterflies(checks: Checks, t: &Tables, sink: &mut Sink<'_>)
    requires cell_count_bound { (t.now.layout.now.at.cell_count ≤ 2 ^ 18) × (sink.old.count ≤ 2 ^ 40) }
    ensures kept_ever { KeptEver (butterflies_in checks.0 t.now.layout.now (faced_in t.now)) sink.old sink.new }
    ensures upper_bound { sink.new.count ≤ sink.old.count + 2 ^ 40 }
{
    if !checks.contains(Checks::BUTTERFLY) {
        return;
    }
    all_cells::keep_bows(t, sink);
}

// Kinds 2, 3 and 4, on tables that are built; every face is sought the way that the choice gives, and counted.
fn find_topology(
    model: &Accepted,
    choice: Choice,
    work: &mut [u32],
    layout: Layout,
    sink: &mut Sink<'_>,
) -> Tally
    requires ready { Ready (lent model.now.model) layout work.old }
    requires few { sink.old.count ≤ 2 ^ 41 }
    ensures kept_by { KeptBy (lent model.now.model) (topology_of (lent model.now.model)) sink.old sink.new }
    ensures tallied { Tallied (goes_by_nodes choice (lent model.now.model)) (length (faces_in (lent model.now.model))) result }
{
    let m = model.model;
    let cx = Context {
        coords: m.coords,
        tolerance: m.tolerance,
        layout,
    };
    let s = indexes::index_faces(work, layout);
    let way = choice.way(s.way);
    all_cells::keep_overs(&cx, work, s.by, sink);
    let tally = all_cells::keep_pairs(&cx, work, s.by, way, sink);
    all_cells::keep_repeats(&cx, &m, work, sink);
    tally
}

// All findings of an accepted model, in order. Where the flags ask for nothing no table is built.
fn find_all(model: &Accepted, choice: Choice, work: &mut [u32], sink: &mut Sink<'_>) -> Tally
    requires room { work_needed (lent model.now.model) ≤ length work.old }
    requires few { sink.old.count ≤ 2 ^ 40 }
    ensures kept_by { KeptBy (lent model.now.model) (full_of (lent model.now.model)) sink.old sink.new }
    ensures tallied { Tallied (goes_by_nodes choice (lent model.now.model)) (sought_in (lent model.now.model)) result }
{
    let checks = model.model.checks;
    if !checks.intersects(Checks::ALL) {
        return Tally::default();
    }
    let layout = model_tables::build_tables(model, work);
    let tables = Tables {
        work,
        layout: &layout,
    };
    find_butterflies(checks, &tables, sink);
    if !checks.contains(Checks::TOPOLOGY) {
        return Tally::default();
    }
    find_topology(model, choice, work, layout, sink)
}

// The same, counted, and the records of the first kept in the lent bytes.
pub fn find(model: &Accepted, choice: Choice, work: &mut [u32], findings: &mut [u8]) -> Counts
    requires room { work_needed (lent model.now.model) ≤ length work.old }
    ensures found { FoundIn (lent model.now.model) findings.old findings.new result.findings }
    ensures tallied { Tallied (goes_by_nodes choice (lent model.now.model)) (sought_in (lent model.now.model)) result.tally }
{
    let mut sink = Sink::new(findings);
    let tally = find_all(model, choice, work, &mut sink);
    Counts {
        findings: sink.count,
        tally,
    }
}
