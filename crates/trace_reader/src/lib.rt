// A trace file's items one at a time, first the writes, then the samples, then the end: from a slice and a place, or from a reader that holds them. Each function
// answers for every slice and number, and states its answer as an equation with a definition. `item_at` alone makes no form checks: it is for the crates of this repository, which have made them.
#![tactic(auto)]

mod items;
mod reader;

pub use items::item_at;
pub use reader::{Reader, read_once};
use refusals::Refusal;
use trace_format::Write;

// What stands at a place of a file. The end is `None`.
#[derive(Clone, Copy, Debug, PartialEq, Eq)]
pub enum Item {
    Write(Write),
    Sample(u32),
}

// What a reader found at its place, and its place afterwards.
#[derive(Clone, Copy, Debug, PartialEq, Eq)]
pub struct Read {
    pub item: Result<Option<Item>, Refusal>,
    pub place: usize,
}
