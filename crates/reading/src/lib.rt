// Reading of the feature record: definitions in specs/, theorems in proofs/. There is no code here.
#![tactic(auto)]
