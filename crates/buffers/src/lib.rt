// W2, two frame buffers in turn: whose turn it is, the buffer of each held word and whether it opens a frame, and what is known of the frame in each buffer, as plain data. It knows of
// no device: words are completed, land and are discarded, and frames end. What each of these does is defined in specs/. There is no code here: the functions stand in the crate `turning`.
#![tactic(auto)]

// The two frame buffers.
#[derive(Clone, Copy, Debug, PartialEq, Eq)]
pub enum Buffer {
    A,
    B,
}

// What is known of the frame in a buffer. Nothing: no word of it landed, or one before the last re-arming. Landing: all its words that landed did so since. Complete: it
// has ended by rule 4, and they are all.
#[derive(Clone, Copy, Debug, PartialEq, Eq)]
pub enum Content {
    Nothing,
    Landing,
    Complete,
}

// What is kept for two buffers. `place` is the place of the next word in B; bit i of `in_b` and of `opening` says of held word i, the oldest being 0, that it goes to B, and that it
// opens a frame. `turn` is the buffer of the frame that completed a word last, `begun` whether that is the open one; `latest` is the buffer whose frame became complete last.
#[derive(Clone, Copy, Debug, PartialEq, Eq)]
pub struct Turns {
    pub place: u32,
    pub in_b: u32,
    pub opening: u32,
    pub turn: Buffer,
    pub begun: bool,
    pub a: Content,
    pub b: Content,
    pub latest: Buffer,
}
