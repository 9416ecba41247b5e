// Runs operations on small inputs and prints what they answer: limits and refusals, lookups.
#![tactic(auto)]

mod limits;
mod lookups;
mod nodes;

use std::io;

fn main(rt: HostRuntime) -> io::Result<()> {
    limits::run(&rt)?;
    lookups::run(&rt)
}
