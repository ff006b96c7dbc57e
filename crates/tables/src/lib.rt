// Tables of options: what a table is, and rustc's.
#![tactic(auto)]

mod long;
mod rustc;
mod table;

pub use rustc::Rustc;
pub use table::{Table, knows};
