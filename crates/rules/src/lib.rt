// The state of the camera interface, as plain data. What the calls make of it is defined in specs/, in the paper's order and words;
// proofs/ has the laws of those definitions and the bench sheet's cases. There is no code here: the functions stand in the crates above.
// The order of the fields means nothing to the rules; it decides what the compiler keeps in registers (docs/SPEED.md).
// The types derive `Clone` and `Copy` alone: nothing compares or prints them.
#![tactic(auto)]

use codes::Waiting;
use output::{Output, SLOTS};

// The registers that hold a value of their own. SR, MIS and ICR have none.
#[derive(Clone, Copy)]
pub struct Registers {
    pub cr: u32,
    pub ris: u32,
    pub ier: u32,
    pub cwstrt: u32,
    pub cwsize: u32,
    pub escr: u32,
    pub esur: u32,
}

// The pins' levels at the last sample.
#[derive(Clone, Copy)]
pub struct Pins {
    pub hsync: bool,
    pub vsync: bool,
    pub clock: bool,
}

// Whether each sync blanks.
#[derive(Clone, Copy)]
pub struct Syncs {
    pub hsync: bool,
    pub vsync: bool,
}

// The place in an open frame: the lines begun in it, and the pixels of the last line, whose column is one less. With ESS 1 the bytes that wait are counted too while the
// line is open (W6): the last pixel's column is then less by these.
#[derive(Clone, Copy)]
pub struct Scan {
    pub lines: u32,
    pub pixels: u32,
}

// Closed, or open: whether the frame is one of those taken, and the place in it. No `Option`, which is no plainer: the papers and the definitions name both states.
#[derive(Clone, Copy)]
pub enum Frame {
    Closed,
    Open(bool, Scan),
}

// The partial word: how many data it has, and their bits. Both are 0 where there is none.
#[derive(Clone, Copy)]
pub struct Partial {
    pub count: u32,
    pub bits: u32,
}

// What the rules 2 to 8 read and change. `syncs` is whether each sync blanked at the last working edge, with ESS 1 by the codes (W6); `rate` is the rate counter; `waiting`
// is how many bytes wait that begin like a code (W6).
#[derive(Clone, Copy)]
pub struct Capture {
    pub registers: Registers,
    pub pins: Pins,
    pub frame: Frame,
    pub syncs: Syncs,
    pub rate: u32,
    pub waiting: Waiting,
    pub partial: Partial,
}

// The state but for the FIFO's slots: what the capture rules change, and what rules 1 and 9 change.
#[derive(Clone, Copy)]
pub struct Core {
    pub capture: Capture,
    pub output: Output,
}

// The device. The held words stand in the first slots, oldest first: an array with the number held beside it (`Output::held`), since there is no heap and C's image has every slot.
#[derive(Clone, Copy)]
pub struct Device {
    pub core: Core,
    pub slots: [u32; SLOTS],
}
