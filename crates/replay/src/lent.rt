// What both replays use: a run on lent lists, and marked bytes.
ghost use Rattle.std.specs.Prelude.{◌≤◌, length};

// What every lent finding byte holds before a run.
pub const MARK: u8 = 170;

// The program's run on one model's bytes, its lists lent here; answers the part of out that it filled.
pub fn run_model<'a>(input: &[u8], findings: &mut [u8; 32768], out: &'a mut [u8; 65600]) -> &'a [u8]
    ensures { length result.now ≤ length out.old }
{
    let mut coords = [0.0; 3072];
    let mut kinds = [0u8; 1024];
    let mut ends = [0u32; 1024];
    let mut words = [0u32; 14336];
    let mut work = [0u32; 16384];
    let n = program::run_in(
        input,
        &mut coords,
        &mut kinds,
        &mut ends,
        &mut words,
        findings,
        &mut work,
        out,
    );
    &out[..n]
}

// The bytes are as they were.
pub fn unmarked(s: &[u8]) -> bool {
    s.iter().all(|b| *b == MARK)
}
