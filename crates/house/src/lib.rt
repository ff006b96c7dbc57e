// House tables: options that a house names itself, as rows over a text.
#![tactic(auto)]

mod house;

pub use house::HouseTable;
pub use rows::{Names, Row};

#[cfg(test)]
mod tests;
