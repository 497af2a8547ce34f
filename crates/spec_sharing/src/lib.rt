// The rules of the sharing: definitions in specs/, what is proved of them in proofs/. No code.
#![tactic(auto)]
