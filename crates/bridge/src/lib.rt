// What `bridge_c` exports and what Rust calls: the types that both read, and flags by the numbers of codes.
#![tactic(auto)]

mod calling;
mod cutting;
mod making;

pub use calling::{Number, calls, count, write_calls};
pub use cutting::{Found, Lengths};
pub use making::{Answer, first_of, make_line};
