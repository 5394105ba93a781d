// The theorem that no two answers of the exam site's number fall together; there is no code.
#![tactic(auto)]
