// The text of answers, as `bench_sheet`, `sample_log` and `frame_log` print them. The bytes of each are defined in specs/Answers.
#![tactic(auto)]

use output::Packing;
use refusals::Refusal;
use std::fmt;

// Whether a call was accepted, or its refusal.
#[derive(Clone, Copy)]
pub struct Answer<T>(pub Result<T, Refusal>);

impl<T> fmt::Display for Answer<T> {
    ghost use Rattle.std.specs.Prelude.{Some};
    ghost use Rattle.log_text.specs.Answers.{answer_text};

    ghost output = { λ answer. Some (answer_text answer.0) };

    fn fmt<W: fmt::Write>(&self, f: &mut fmt::Formatter<W>) -> fmt::Result {
        match &self.0 {
            Ok(_) => write!(f, "accepted"),
            Err(refusal) => write!(f, "refused {}", refusal.number()),
        }
    }
}

// What became of a sample's own word.
#[derive(Clone, Copy)]
pub struct Packed(pub Packing);

impl fmt::Display for Packed {
    ghost use Rattle.std.specs.Prelude.{Some};
    ghost use Rattle.log_text.specs.Answers.{packing_text};

    ghost output = { λ packed. Some (packing_text packed.0) };

    fn fmt<W: fmt::Write>(&self, f: &mut fmt::Formatter<W>) -> fmt::Result {
        match self.0 {
            Packing::Nothing => write!(f, "no word"),
            Packing::Completed(word) => write!(f, "completed {word:08x}"),
            Packing::Lost => write!(f, "a word lost"),
        }
    }
}
