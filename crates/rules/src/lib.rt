// The rules of document 01 stand in specs/, and the theorems on them in proofs/; no code is here.
#![tactic(auto)]
