// Words that land: the output rules over a list of grants and words, beside a queue. There is no code and no camera here: specs/ has the statement, proofs/ its proof.
#![tactic(auto)]
