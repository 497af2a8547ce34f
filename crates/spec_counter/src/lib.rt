// The counter program: its lines, and what it writes. Definitions in specs/, what is proved of them in proofs/. No
// code.
#![tactic(auto)]
