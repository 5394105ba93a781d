// The checker: a bounded state that takes one word after the other.
#![tactic(auto)]

mod checker;

pub use checker::{Breach, Checker, Stepped};
