// The words of rustc's options: how they are written, read, and read from comma lists.
#![tactic(auto)]

mod known;
mod link;
mod output;
mod reading;
mod report;
mod set;

pub use known::{KnownWords, known_words};
pub use link::{LibraryKind, LinkKind, LinkModifier, Modifier, Sign};
pub use output::{CrateType, Emit};
pub use reading::{next_word, read_word};
pub use report::{Color, ErrorFormat, LintLevel};
pub use set::WordSet;

#[cfg(test)]
mod tests;
