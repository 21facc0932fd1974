// Running a trace file, whole and by parts, as definitions; proofs/ has their laws. There is no code here: the functions stand in the crates `files` and `parts`.
#![tactic(auto)]
