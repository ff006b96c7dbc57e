// Sinks that others wrote, against the trait alone, and histories of calls on all sinks.
#![tactic(auto)]

mod lender;
mod letters;
mod nothing;

pub use lender::{cleared, cleared_sheet, handed_back, lent_to_a_holder};
pub use letters::Letters;
pub use nothing::TakesNothing;

#[cfg(test)]
mod model;
#[cfg(test)]
mod tests;
