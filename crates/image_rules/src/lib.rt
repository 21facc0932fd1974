// The image of a device and that of a board, as include/dcmi.h names their words, as definitions; proofs/ has their laws: device and image, board and image give each other back. There is
// no code here: the functions stand in the crates `device_words` and `board_words`.
#![tactic(auto)]
