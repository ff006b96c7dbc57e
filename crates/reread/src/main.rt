// Reads the texts of a sample call by call, to be held against the calls of the original.
#![tactic(auto)]

mod answers;

use answers::answers;
use std::io;

fn main(rt: HostRuntime) -> io::Result<()> {
    let sample = io::read_to_string(rt.alloc(), rt.stdin())?;
    let report = answers(rt.alloc(), sample.as_str())?;
    rt.print(report)
}
