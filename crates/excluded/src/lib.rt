// What wrong programs would give, and that contracts and demand 3 exclude it: theorems, and no code.
#![tactic(auto)]
