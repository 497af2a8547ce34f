// Lists and numbers: what the definitions are written with. No code.
#![tactic(auto)]
