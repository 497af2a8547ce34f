// A board, and the table of words that holds it: definitions in specs/, what is proved of them in proofs/. No code.
#![tactic(auto)]
