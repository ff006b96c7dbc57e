// Rows over a text of names: what they say, and the check of them.
#![tactic(auto)]

mod faults;
mod rows;

pub use faults::MOST_ROWS;
pub use rows::{Names, Row};

#[cfg(test)]
mod tests;
