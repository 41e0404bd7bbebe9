// Encoding of structure items: definitions in specs/, theorems in proofs/. There is no code here.
#![tactic(auto)]
