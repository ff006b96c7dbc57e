// The flags of rustc.
#![tactic(auto)]

mod equality;
mod flag;
mod kinds;
mod modifiers;

pub use equality::equal;
pub use flag::Flag;
pub use kinds::{Code, Kind, Takes, UnknownCode};
pub use modifiers::ModifierList;

#[cfg(test)]
mod tests;
