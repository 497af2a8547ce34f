// The wall sheet: the board as text, and that text read back. Definitions in specs/, what is proved of them in
// proofs/. No code.
#![tactic(auto)]
