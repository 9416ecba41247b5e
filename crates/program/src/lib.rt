// The program: from the bytes of standard input to those of standard output.
#![tactic(auto)]

ghost use Rattle.std.specs.Prelude.{◌≤◌, length};
ghost use Rattle.mesh.specs.Lent.{lent};
ghost use Rattle.report.specs.Program.{output};
ghost use Rattle.report_text.specs.Stored.{Stored};
ghost use Rattle.program.specs.Running.{Memory, Lists, Running};
ghost use Rattle.program.specs.Steps.{Reporting};

use mesh::Model;
use refusals::Refusal;

// The check of a model, and its report: a refusal's line or a report's text.
fn report_on(model: &Model, findings: &mut [u8], work: &mut [u32], out: &mut [u8]) -> usize
    requires { Memory (length findings.old) (length work.old) (length out.old) }
    ensures { Reporting (lent model.now) findings.old findings.new work.old work.new out.old out.new result }
{
    match conformance::check(model, findings, work) {
        Err(e) => report_text::put_refused(out, 0, e),
        Ok(c) => report_text::put_report(out, findings, c.totals.total, c.totals.kept as usize),
    }
}

// The whole run, in lent lists: there is room in them for all that an input can hold, so what was found is a model.
// They are handed one by one: a struct of them would be made at each call only to be taken apart here.
pub fn run_in(
    input: &[u8],
    coords: &mut [f64],
    kinds: &mut [u8],
    ends: &mut [u32],
    words: &mut [u32],
    findings: &mut [u8],
    work: &mut [u32],
    out: &mut [u8],
) -> usize
    requires { Lists (length coords.old) (length kinds.old) (length ends.old) (length words.old) × Memory (length findings.old) (length work.old) (length out.old) }
    ensures { Running input.now coords.old coords.new kinds.old kinds.new ends.old ends.new words.old words.new findings.old findings.new work.old work.new out.old out.new result }
{
    if 32768 < input.len() {
        return report_text::put_refused(out, 0, Refusal::FileLength);
    }
    match model_read::read(input, coords, kinds, ends, words) {
        Err(e) => report_text::put_refused(out, 0, e),
        Ok(f) => {
            let m = f.model(coords, kinds, ends, words).unwrap();
            report_on(&m, findings, work, out)
        }
    }
}

// The whole run.
pub fn run(input: &[u8], out: &mut [u8]) -> usize
    requires { 65600 ≤ length out.old }
    ensures { Stored out.old 0 (output input.now) out.new result × (result ≤ length out.old) }
{
    let mut coords = [0.0; 3072];
    let mut kinds = [0u8; 1024];
    let mut ends = [0u32; 1024];
    let mut words = [0u32; 14336];
    let mut findings = [0u8; 32768];
    let mut work = [0u32; 16384];
    run_in(
        input,
        &mut coords,
        &mut kinds,
        &mut ends,
        &mut words,
        &mut findings,
        &mut work,
        out,
    )
}
