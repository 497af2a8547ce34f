// Text: numbers in digits, and texts as bytes. Definitions in specs/, what is proved of them in proofs/. No code.
#![tactic(auto)]
