// A bounded first-in first-out queue that grants drain, as definitions and a theorem.
// No code: the definitions are in specs/Queue.antt and the theorem is in proofs/Theorem.antt.
#![tactic(auto)]
