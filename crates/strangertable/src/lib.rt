// What somebody outside writes against our traits alone.
#![tactic(auto)]

mod only;

pub use only::OnlyZ;

#[cfg(test)]
mod tests;
