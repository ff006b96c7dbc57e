// Answers a sample of options and arguments, to be held against the answers of the original.
#![tactic(auto)]

mod answers;

use answers::answers;
use std::io;

fn main(rt: HostRuntime) -> io::Result<()> {
    let sample = io::read_to_string(rt.alloc(), rt.stdin())?;
    let report = answers(rt.alloc(), sample.as_str())?;
    rt.print(report)
}
