// That reading a pair and writing one are each other's inverse, and that ignored pins change nothing that is read: a theorem on the
// definitions of `reading` and `writing`, and no code.
#![tactic(auto)]
