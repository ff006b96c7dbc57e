// The rules of reading: from a list of arguments to flags.
#![tactic(auto)]

mod counts;
mod examples;

pub use counts::most_flags;
pub use examples::example;

#[cfg(test)]
mod tests;
