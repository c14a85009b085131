// The walk program on the pairs of docs/readings.md.
#![tactic(auto)]

use std::io;

fn main(rt: HostRuntime) -> io::Result<()> {
    walk_run::run(&rt)
}
