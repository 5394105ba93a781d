// The paper's cases, computed from the definitions in one declaration; there is no code.
#![tactic(auto)]
