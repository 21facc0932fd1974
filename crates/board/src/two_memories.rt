// A run of samples, and one sample, over two lent memories, each from its start byte on: in mode two.
// The memories and their starts come one by one, as in C (include/dcmi.h): a struct would be made for each call and taken apart in it.
ghost use Rattle.std.specs.Prelude.{◌||◌, ◌≡◌, ◌+◌, ltb, length};
ghost use Rattle.refusals.specs.Table.{outcome};
ghost use Rattle.run_refusals.specs.RunRefusals.{refusal_of};
ghost use Rattle.board_rules.specs.TwoBuffers as buffer_rules;
ghost use Rattle.board_rules.specs.BoardRuns as board_runs;
ghost use Rattle.board.specs.Answers as call_answers;

use crate::one_memory::unmatched;
use crate::{TwoAccepted, TwoSampled, malformed};
use board_rules::{Board, Landing, Mode, TwoAnswer};
use buffers::{Buffer, Turns};
use refusals::Refusal;
use rules::Device;
use run_refusals::refusal_of;
use two_buffers::{Turned, two_step, two_steps};

// The refusals 1, 9 of either start, 7, 8 in order, by whether the board is malformed and how many samples it has counted.
fn refusal_of_both(
    bad: bool,
    before: u32,
    memory_a: &[u8],
    start_a: usize,
    memory_b: &[u8],
    start_b: usize,
    samples: &[u32],
) -> Result<(), Refusal>
    ensures { outcome result ≡ refusal_of bad (ltb (length memory_a.now) start_a || ltb (length memory_b.now) start_b) before samples.now }
{
    if bad {
        return Err(Refusal::Malformed);
    }
    if memory_a.len() < start_a {
        return Err(Refusal::StartBeyond);
    }
    refusal_of(false, before, memory_b, start_b, samples)
}

// The samples of an accepted run, in mode two.
fn accepted_run(
    d: Device,
    turns: Turns,
    buffer_a: &mut [u8],
    buffer_b: &mut [u8],
    samples: &[u32],
) -> Board
    requires { call_answers.Accepted d turns (length samples.now) }
    ensures { call_answers.left_two result buffer_a.new buffer_b.new ≡ call_answers.ran_two d turns buffer_a.old buffer_b.old samples.now }
{
    let mut slots = d.slots;
    let before = Turned {
        core: d.core,
        turns,
    };
    let after = two_steps(before, &mut slots, buffer_a, buffer_b, samples);
    Board {
        device: Device {
            core: after.core,
            slots,
        },
        mode: Mode::Two(after.turns),
    }
}

// A run: refusals 1, 16, 9, 7, 8, or the samples in order over both frame buffers.
pub fn run_two(
    b: Board,
    memory_a: &mut [u8],
    start_a: usize,
    memory_b: &mut [u8],
    start_b: usize,
    samples: &[u32],
) -> Result<Board, Refusal>
    ensures { call_answers.two_ran b result memory_a.new memory_b.new ≡ board_runs.run_two b (call_answers.both memory_a.old start_a memory_b.old start_b) samples.now }
{
    let Mode::Two(turns) = b.mode else {
        return Err(unmatched(b));
    };
    refusal_of_both(
        malformed(b),
        b.device.core.output.counts.samples,
        memory_a,
        start_a,
        memory_b,
        start_b,
        samples,
    )?;
    Ok(accepted_run(
        b.device,
        turns,
        &mut memory_a[start_a..],
        &mut memory_b[start_b..],
        samples,
    ))
}

fn start_in(u: Buffer, start_a: usize, start_b: usize) -> usize
    ensures { result ≡ call_answers.start_in start_a start_b u }
{
    match u {
        Buffer::A => start_a,
        Buffer::B => start_b,
    }
}

// A byte of a frame buffer as a byte of its memory.
#[tactic(auto, unfolding(crate::specs::Answers::in_memories))]
fn in_memories(start_a: usize, start_b: usize, landing: Option<Landing>) -> Option<Landing>
    requires { call_answers.Within start_a start_b landing }
    ensures { result ≡ call_answers.in_memories start_a start_b landing }
{
    let Landing { buffer, byte } = landing?;
    Some(Landing {
        buffer,
        byte: start_in(buffer, start_a, start_b) + byte,
    })
}

// An accepted sample, in mode two; the landing is a byte of its frame buffer.
fn accepted_sample(
    d: Device,
    turns: Turns,
    buffer_a: &mut [u8],
    buffer_b: &mut [u8],
    w: u32,
) -> TwoAccepted
    requires { call_answers.Accepted d turns 1 }
    ensures { call_answers.stepped_two result buffer_a.new buffer_b.new ≡ buffer_rules.two_step (call_answers.two d turns buffer_a.old buffer_b.old) w }
{
    let mut slots = d.slots;
    let before = Turned {
        core: d.core,
        turns,
    };
    let r = two_step(before, &mut slots, buffer_a, buffer_b, w);
    TwoAccepted {
        device: Device {
            core: r.after.core,
            slots,
        },
        turns: r.after.turns,
        answer: r.answer,
    }
}

// One sample: refusals 1, 16, 9, 7, 8, or the rules over both frame buffers; the landing names the buffer and the byte in that memory.
pub fn sample_two(
    b: Board,
    memory_a: &mut [u8],
    start_a: usize,
    memory_b: &mut [u8],
    start_b: usize,
    w: u32,
) -> Result<TwoSampled, Refusal>
    ensures { call_answers.two_sampled b result memory_a.new memory_b.new ≡ board_runs.sample_two b (call_answers.both memory_a.old start_a memory_b.old start_b) w }
{
    let Mode::Two(turns) = b.mode else {
        return Err(unmatched(b));
    };
    let one = [w];
    refusal_of_both(
        malformed(b),
        b.device.core.output.counts.samples,
        memory_a,
        start_a,
        memory_b,
        start_b,
        &one,
    )?;
    let after = accepted_sample(
        b.device,
        turns,
        &mut memory_a[start_a..],
        &mut memory_b[start_b..],
        w,
    );
    let landing = in_memories(start_a, start_b, after.answer.landing);
    Ok(TwoSampled {
        board: Board {
            device: after.device,
            mode: Mode::Two(after.turns),
        },
        answer: TwoAnswer {
            landing,
            ..after.answer
        },
    })
}
