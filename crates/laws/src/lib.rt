// Laws of the rules over every depth and every list of calls: no device is malformed, so completed = landed + held + discarded; the counts are those of the
// history; ERR never rises. There is no code here; the crates above cite proofs/.
#![tactic(auto)]
