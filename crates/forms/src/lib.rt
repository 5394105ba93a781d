// Demand 3 for lists of calls in which each is made by value or on a borrowed controller: a theorem, and no code.
#![tactic(auto)]
