// Words on their way to memory: counts, a FIFO and the next place in the frame buffer. Here are the types; rule 1, given the grant and ENABLE as truth values, and
// of rule 9 the count, the test for full, holding and discarding are definitions (specs/), with their laws and computed cases (proofs/). What a lost word does besides is the
// rule of the module that lost it. Nothing here knows of a camera. The functions that change the slots are in `fifo`.
#![tactic(auto)]

// How many slots there are, for the greatest depth; and the depth where none is named.
pub const SLOTS: usize = 32;

pub const USUAL_DEPTH: u32 = 4;

// Counts since reset.
#[derive(Clone, Copy)]
pub struct Counts {
    pub completed: u32,
    pub samples: u32,
    pub discarded: u32,
    pub landed: u32,
}

// The number of words held, the place of the next word to land, since the last re-arming, the depth, which is the most words that can be held, and the counts. The
// held words stand in the first slots, oldest first. The order of the fields means nothing to the rules (docs/SPEED.md).
#[derive(Clone, Copy)]
pub struct Output {
    pub held: u32,
    pub counts: Counts,
    pub place: u32,
    pub depth: u32,
}

// The output after rule 1, and the byte of the frame buffer at which the oldest held word landed, if it did (`lands`, `no_landing`). The answer stands first for speed
// (docs/SPEED.md).
#[derive(Clone, Copy)]
pub struct Granted {
    pub landing: Option<usize>,
    pub output: Output,
}

// What became of a full word.
#[derive(Clone, Copy, Debug, PartialEq, Eq)]
pub enum Fate {
    Held,
    Lost,
}

// The output after a full word, and what became of the word.
#[derive(Clone, Copy)]
pub struct Offered {
    pub output: Output,
    pub fate: Fate,
}

// A sample's second answer, of its own word. Nothing: none was completed. Completed: one was, with its value, and is held. Lost: one was lost.
#[derive(Clone, Copy, Debug, PartialEq, Eq)]
pub enum Packing {
    Nothing,
    Completed(u32),
    Lost,
}

// A sample's two answers: the byte at which a word landed, if one did, and what became of the sample's own word.
#[derive(Clone, Copy, Debug, PartialEq, Eq)]
pub struct SampleAnswer {
    pub landing: Option<usize>,
    pub packed: Packing,
}
