// The model trace: the words laid down for a controller, and demand 3, proved of the controller's calls. There is no code.
#![tactic(auto)]
