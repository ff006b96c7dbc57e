// A sink that writes its arguments into a buffer, with 0x1f between them.
#![tactic(auto)]

mod sink;
mod state;
mod steps;

pub use state::Joined;

#[cfg(test)]
mod tests;
