// Commands as pairs of words: what a pair stands for, and the pins of its words.
#![tactic(auto)]

pub mod address;
mod operation;
pub mod pins;

pub use operation::{Operation, Pair, Request};
