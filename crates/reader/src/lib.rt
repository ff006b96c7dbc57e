// A text read flag by flag.
#![tactic(auto)]

mod cursor;
mod look;
mod place;
mod reader;
mod turns;

pub use cursor::Cursor;
pub use look::Look;

#[cfg(test)]
mod tests;
