// A device with its buffer mode (W2): reset, making one with a depth, the test for malformed ones, register reads and writes, the interrupt line, re-arming, setting the mode, runs and single
// samples over one memory or two, and the latest complete frame. A board goes in by value and comes back by value. Each public function answers for every board and number,
// states its whole result as one equation with a definition of the crate `board_rules`, and has no `requires`; a refused call gives its refusal, and the caller's board is as it was.
#![tactic(auto)]

ghost use Rattle.std.specs.Prelude.{cond, ◌≡◌, ◌≤◌, ◌^◌};
ghost use Rattle.refusals.specs.Refusals.{refused, answered};
ghost use Rattle.refusals.specs.Table.{answer_of};
ghost use Rattle.board_rules.specs.State as board_state;
ghost use Rattle.board_rules.specs.BoardCalls as board_calls;
ghost use Rattle.rules.specs.RegisterCalls as register_rules;
ghost use Rattle.board.specs.Answers as call_answers;

mod handing_back;
mod one_memory;
mod register_calls;
mod two_memories;

use board_rules::{Board, Handed, Mode, TwoAnswer};
use buffers::Turns;
pub use handing_back::{hand_back, latest_frame};
pub use one_memory::{run, sample, unmatched};
use output::{Output, SampleAnswer};
use refusals::Refusal;
pub use register_calls::{interrupt, one_buffer, read, rearm, two_buffers, write};
use rules::Device;
pub use two_memories::{run_two, sample_two};

// A board after one sample over one memory, with the sample's two answers.
#[derive(Clone, Copy)]
pub struct Sampled {
    pub board: Board,
    pub answer: SampleAnswer,
}

// A board after one sample over two memories, with the sample's two answers.
#[derive(Clone, Copy)]
pub struct TwoSampled {
    pub board: Board,
    pub answer: TwoAnswer,
}

// What an accepted one leaves.
#[derive(Clone, Copy)]
struct TwoAccepted {
    device: Device,
    turns: Turns,
    answer: TwoAnswer,
}

// The latest complete frame, handed back: where it is, and the part of A's or B's memory that holds it; empty where there is no frame or its memory is too short.
#[derive(Clone, Copy)]
pub struct HandedBack<'m> {
    pub frame: Handed,
    pub part: &'m [u8],
}

// A device in mode one.
fn in_one(device: Device) -> Board
    ensures { result ≡ board_calls.in_one device }
{
    Board {
        device,
        mode: Mode::One,
    }
}

// A board after reset, with the usual depth of four.
pub fn fresh() -> Board
    ensures { result ≡ board_calls.fresh }
{
    in_one(device::fresh())
}

// A board made with a depth of 1 to 32. Refusal 18, and no board.
#[tactic(auto, unfolding(board_rules::specs::BoardCalls::made))]
pub fn made(depth: u32) -> Result<Board, Refusal>
    ensures { call_answers.changed (board_calls.in_one register_rules.no_device) result ≡ board_calls.made depth }
{
    Ok(in_one(device::made(depth)?))
}

// The bit above those of so many held words.
fn bit_above(held: u32) -> u64
    requires { held ≤ 32 }
    ensures { result ≡ 2 ^ held }
{
    1u64 << held
}

// B's place above landed, or tags of a slot that holds no word.
#[tactic(auto, unfolding(board_rules::specs::State::bad_turns))]
fn bad_turns(o: Output, t: Turns) -> bool
    requires { o.held ≤ 32 }
    ensures { result ≡ board_state.bad_turns o t }
{
    let above = bit_above(o.held);
    above <= t.in_b as u64 || above <= t.opening as u64 || o.counts.landed < t.place
}

fn bad_mode(o: Output, mode: Mode) -> bool
    requires { o.held ≤ 32 }
    ensures { result ≡ board_state.bad_mode o mode }
{
    matches!(mode, Mode::Two(turns) if bad_turns(o, turns))
}

// Whether the board is malformed.
#[tactic(auto, using(crate::proofs::Modes::few_held), unfolding(board_rules::specs::State::malformed))]
pub fn malformed(b: Board) -> bool
    ensures { result ≡ board_state.malformed b }
{
    device::malformed(b.device) || bad_mode(b.device.core.output, b.mode)
}

// Refusal 1.
fn refuse_malformed(b: Board) -> Result<(), Refusal>
    ensures { answer_of result ≡ cond (board_state.malformed b) (refused 1) (answered tt) }
{
    if malformed(b) {
        Err(Refusal::Malformed)
    } else {
        Ok(())
    }
}
