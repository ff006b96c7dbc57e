// Where arguments go: what a sink is, and whole arguments put into any sink.
#![tactic(auto)]

mod put;
mod sink;
mod token;

pub use put::{end_argument, keep_or_cut, put_argument, put_arguments};
pub use sink::Sink;
pub use token::Token;
