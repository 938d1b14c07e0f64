// Demand 3: why the record explains every run; and how many rounds a queue can lose. Nothing here is code; what is proved stands in proofs/.
#![tactic(auto)]
