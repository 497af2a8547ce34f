// The pair question: is there a job between two benches? Definitions in specs/, what is proved of them in proofs/. No
// code.
#![tactic(auto)]
