// The theorem that a refused configuration is refused by every call that tests one; there is no code.
#![tactic(auto)]
