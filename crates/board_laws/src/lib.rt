// Laws of boards (W2), over every depth and every list of calls over one memory or two: specs/ says what a list of calls is and what happened in it, proofs/ has the laws. There is no
// code here.
#![tactic(auto)]
