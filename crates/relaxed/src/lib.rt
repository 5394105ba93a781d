// The theorem that a trace accepted on a sheet is accepted on a more relaxed one, rule by rule; there is no code.
#![tactic(auto)]
