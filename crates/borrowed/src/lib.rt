// Calls on a controller that the caller lends, which finds it changed in place.
#![tactic(auto)]

mod calls;

pub use calls::{Given, offer, tick};
