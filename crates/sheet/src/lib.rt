// A sink that puts its arguments back to back, with a table of their places.
#![tactic(auto)]

mod sink;
mod state;
mod steps;

pub use state::Sheet;
