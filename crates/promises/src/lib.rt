// Every theorem of the project in one record; there is no code.
#![tactic(auto)]
