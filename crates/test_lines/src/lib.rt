//! A line that a program reads, its words, and the answer to it.
#![tactic(auto)]

mod answering;
mod line;

pub use line::{Form, Line};
