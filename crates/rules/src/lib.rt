// The published rules, and the theorem that they are tests of a few timestamps; there is no code.
#![tactic(auto)]
