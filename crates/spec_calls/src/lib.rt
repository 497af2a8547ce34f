// The calls: what each answers and leaves, the job book, the tally. Definitions in specs/, what is proved of them in
// proofs/. No code.
#![tactic(auto)]
