// The link between the lists of a session and the theory: each step on lists is the theory's step, so its theorems speak of the code.
// It rests on settling, peeling, table, counting and test8 for what is done on lists, and on theory; it alone knows both, and has no code.
#![tactic(auto)]
