// The boards of document 01 that are marked there. No code.
#![tactic(auto)]
