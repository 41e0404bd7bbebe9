// The cases that document 01 marks P: one list in specs/Cases.antt, one theorem in proofs/Marked.antt; the three demands, stated in
// specs/Demand1.antt, Demand2.antt and Demand3.antt. There is no code here.
#![tactic(auto)]
