// The program: reads a model's file from standard input and writes its report to standard output.
#![tactic(auto)]

use std::io;

fn main(rt: HostRuntime) -> io::Result<()> {
    program_io::run_between(&mut rt.stdin(), &mut rt.stdout())
}
