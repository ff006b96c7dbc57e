// Prints for a person what a text of CARGO_ENCODED_RUSTFLAGS is.
#![tactic(auto)]

mod lines;
mod reasons;
mod told;

use lines::explained;
use std::io;
use std::io::Read;
use text::LONGEST_TEXT;

// Reads standard input to its end, or one byte more than a text may have.
fn read_text(rt: &HostRuntime) -> io::Result<Vec<u8>> {
    let mut text = Vec::new(rt.alloc());
    rt.stdin()
        .take(LONGEST_TEXT as u64 + 1)
        .read_to_end(&mut text)?;
    Ok(text)
}

fn main(rt: HostRuntime) -> io::Result<()> {
    let text = read_text(&rt)?;
    let report = explained(rt.alloc(), text.as_slice())?;
    rt.print(report)
}
