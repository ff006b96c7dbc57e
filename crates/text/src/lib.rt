// Texts, their arguments, and what is said of both.
#![tactic(auto)]

mod arguments;
mod refusals;
mod shapes;
mod string;

pub use arguments::{
    Arguments, LONGEST_TEXT, SEPARATOR, argument_at, arguments_of, can_join, check_text, count,
};
pub use refusals::Refusal;
pub use shapes::{Shape, shape_of};
pub use string::{
    contains, ends_with, find, piece_at, rfind, rsplit_once, split_once, starts_with, to_str,
};

#[cfg(test)]
mod tests;
