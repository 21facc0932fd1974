// The device with its buffer mode (W2), as plain data. What the calls make of it, with one memory or two, is defined in specs/; proofs/ has the request's cases. There is no
// code here: the functions stand in the crates above.
// The types derive `Clone` and `Copy` alone: nothing compares or prints them.
#![tactic(auto)]

use buffers::{Buffer, Turns};
use output::Packing;
use rules::Device;

// One frame buffer, or two in turn with what is kept for them. No `Option`, which is no plainer: the papers and the definitions name both modes.
#[derive(Clone, Copy)]
pub enum Mode {
    One,
    Two(Turns),
}

// Where a word landed, in mode two: in a buffer, at a byte of it.
#[derive(Clone, Copy)]
pub struct Landing {
    pub buffer: Buffer,
    pub byte: usize,
}

// A device and its buffer mode.
#[derive(Clone, Copy)]
pub struct Board {
    pub device: Device,
    pub mode: Mode,
}

// The answers of one sample over two memories: where a word landed, if one did, and what became of the sample's own word.
#[derive(Clone, Copy)]
pub struct TwoAnswer {
    pub landing: Option<Landing>,
    pub packed: Packing,
}

// Where the latest complete frame is: no frame is complete; that buffer's memory is too short for so many bytes from its start on; or the frame is in a buffer, with so many.
#[derive(Clone, Copy)]
pub enum Handed {
    Nothing,
    TooShort(Buffer, usize),
    FrameIn(Buffer, usize),
}
