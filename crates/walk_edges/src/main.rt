// The walk program on the edges of document 01 (oracle/edges.py).
#![tactic(auto)]

use std::io;

fn main(rt: HostRuntime) -> io::Result<()> {
    walk_run::run(&rt)
}
