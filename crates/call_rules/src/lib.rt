// What the exported calls on a device answer and leave, as definitions; proofs/ has rows of them, computed. There is no code here: the functions stand in the crate `device_calls`, and under
// the names of include/dcmi.h in `dcmi`.
#![tactic(auto)]
