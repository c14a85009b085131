// A passing store of 20000 clauses is built and judged; the judging's number is written.
#![tactic(auto)]

use std::io;

fn main(rt: HostRuntime) -> io::Result<()> {
    let number = judge_scale::judged::<140000, 20000, 5000, 80000, 40000>();
    println!(rt; "{number}")
}
