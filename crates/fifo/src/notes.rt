// A sample's two answers, noted in a lent place: the loop over the samples lends it on, and it is written only where a word lands or is full (docs/SPEED.md).
ghost use Rattle.std.specs.Prelude.{◌≡◌, ℕ, ◌+◌, ◌<◌, ◌^◌};
ghost use Rattle.output.specs.Output as output_rules;
ghost use Rattle.fifo.specs.Notes as notes;

use output::{Packing, SampleAnswer};

// Before a sample: nothing is noted.
pub fn no_answer() -> SampleAnswer
    ensures { result ≡ notes.no_answer }
{
    SampleAnswer {
        landing: None,
        packed: Packing::Nothing,
    }
}

// Where a word landed, if one did.
pub fn note_landing(landing: Option<usize>, answer: &mut SampleAnswer)
    ensures { answer.new ≡ notes.note_landing landing answer.old }
{
    if let Some(byte) = landing {
        answer.landing = Some(byte);
    }
}

// What became of the word, if there was one. By cases, and not by one test and a copy: measured with `grant` (its line).
pub fn note_packing(packing: Packing, answer: &mut SampleAnswer)
    ensures { answer.new ≡ notes.note_packing packing answer.old }
{
    match packing {
        Packing::Nothing => {}
        Packing::Completed(word) => answer.packed = Packing::Completed(word),
        Packing::Lost => answer.packed = Packing::Lost,
    }
}

// A byte of the frame buffer as a byte of the lent memory.
#[tactic(auto, unfolding(output::specs::Output::in_memory))]
pub fn in_memory(start: usize, landing: Option<usize>) -> Option<usize>
    requires { (b : ℕ) → landing ≡ Some b → start + b < 2 ^ 64 }
    ensures { result ≡ output_rules.in_memory start landing }
{
    landing.map(|byte| start + byte)
}
