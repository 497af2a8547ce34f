// Demand 3 of the functions and the C calls themselves: lists of calls, by each function's own contract. No code.
#![tactic(auto)]
