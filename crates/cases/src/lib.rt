// The numbers of document 01, "Numbers to prove together": two lists in specs/, the one equation in proofs/. There is no code here.

#![tactic(auto)]
