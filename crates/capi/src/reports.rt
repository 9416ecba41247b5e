// The text of a report, and the program's whole run.
ghost use Rattle.capi.specs.Reports.{ReportExport, RunExport};

use crate::answers;
use refusals::Refusal;

// The text of the first `kept` records, or that there are no findings, as the program prints it; and its length in bytes.
#[unsafe(no_mangle)]
pub extern "C" fn lenoshale_report(
    findings: &[u8],
    total: u64,
    kept: u64,
    out: &mut [u8],
    size: &mut u64,
) -> u32
    ensures { ReportExport findings.now total kept out.old out.new size.old size.new result }
{
    let k = kept as usize;
    if findings.len() / 64 < k {
        return answers::refused(Refusal::Room);
    }
    if out.len() < 64 {
        return answers::refused(Refusal::Room);
    }
    if (out.len() - 64) / 128 < k {
        return answers::refused(Refusal::Room);
    }
    let n = report_text::put_report(out, findings, total, k);
    *size = n as u64;
    0
}

// The program's output from its input, and its length in bytes.
#[unsafe(no_mangle)]
pub extern "C" fn lenoshale_run(input: &[u8], out: &mut [u8], size: &mut u64) -> u32
    ensures { RunExport input.now out.old out.new size.old size.new result }
{
    if out.len() < 65600 {
        return answers::refused(Refusal::Room);
    }
    let n = program::run(input, out);
    *size = n as u64;
    0
}
