// Demand 3: with enough bus grants no word is ever lost, over every list of calls, every depth of the FIFO (W9) and both buffer modes (W2). There is no code here:
// specs/ has the statement, proofs/ its proof from the queue theorem of the crate `queue` and from laws of the rules.
#![tactic(auto)]
