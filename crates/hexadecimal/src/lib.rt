// Bytes written as hexadecimal digits.
#![tactic(auto)]

mod bytes;

pub use bytes::{Fault, bytes_of};
