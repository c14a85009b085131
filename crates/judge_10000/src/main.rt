// A passing store of 10000 clauses is built and judged; the judging's number is written.
#![tactic(auto)]

use std::io;

fn main(rt: HostRuntime) -> io::Result<()> {
    let number = judge_scale::judged::<70000, 10000, 2500, 40000, 20000>();
    println!(rt; "{number}")
}
