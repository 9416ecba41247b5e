// The program's run between a file of data/ and standard output, on inputs at its limits: the file's name, then what the program writes.
#![tactic(auto)]

use std::rt::Files;
use std::{fs, io};

fn run_on<R: Files + Print>(rt: &R, name: &str) -> io::Result<()> {
    println!(rt; "{name}:")?;
    let Ok(mut file) = fs::open(rt, name) else {
        return println!(rt; "no such file");
    };
    program_io::run_between(&mut file, &mut io::writer(rt))
}

const INPUTS: [&str; 5] = ["empty", "longest", "longer", "findings-512", "findings-599"];

fn main(rt: HostRuntime) -> io::Result<()> {
    for name in INPUTS {
        run_on(&rt, name)?;
    }
    Ok(())
}
