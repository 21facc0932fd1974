// One sample over a board that is lent, with one memory, and with two (W2): thin calls over those by value. Each says its answer, the board and the memories afterwards as one
// equation with a definition of the crate `board_rules`; refused, they are as they were.
#![tactic(auto)]

ghost use Rattle.std.specs.Prelude.{◌≡◌};
ghost use Rattle.board_rules.specs.BoardRuns as board_runs;
ghost use Rattle.board.specs.Answers as call_answers;

use board_rules::{Board, TwoAnswer};
use output::SampleAnswer;
use refusals::Refusal;

// One sample.
pub fn sample(
    b: &mut Board,
    memory: &mut [u8],
    start: usize,
    w: u32,
) -> Result<SampleAnswer, Refusal>
    ensures { call_answers.lent_sampled b.new result memory.new ≡ board_runs.sample b.old memory.old start w }
{
    let after = board::sample(*b, memory, start, w)?;
    *b = after.board;
    Ok(after.answer)
}

// One sample over two memories.
pub fn sample_two(
    b: &mut Board,
    memory_a: &mut [u8],
    start_a: usize,
    memory_b: &mut [u8],
    start_b: usize,
    w: u32,
) -> Result<TwoAnswer, Refusal>
    ensures { call_answers.lent_two_sampled b.new result memory_a.new memory_b.new ≡ board_runs.sample_two b.old (call_answers.both memory_a.old start_a memory_b.old start_b) w }
{
    let after = board::sample_two(*b, memory_a, start_a, memory_b, start_b, w)?;
    *b = after.board;
    Ok(after.answer)
}
