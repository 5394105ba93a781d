// The theorem that a trace which passed by the former rules still passes, and which breaches stay; there is no code.
#![tactic(auto)]
