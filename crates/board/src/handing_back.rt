// The latest complete frame, in mode two: where it is, by the lengths and starts of the runs' memories; and the part of the memory that holds it.
ghost use Rattle.std.specs.Prelude.{◌≡◌, ◌+◌, ◌*◌, ◌≤◌, length, take, drop};
ghost use Rattle.refusals.specs.Refusals.{answered};
ghost use Rattle.refusals.specs.Table.{answer_of};
ghost use Rattle.board_rules.specs.HandingBack as handing_rules;
ghost use Rattle.board.specs.Answers as call_answers;

use crate::one_memory::unmatched;
use crate::{HandedBack, refuse_malformed};
use board_rules::{Board, Handed, Mode};
use buffers::Buffer;
use refusals::Refusal;
use turning::latest_complete;

// So many words in a memory of this length from this start on, or too short.
#[tactic(auto, unfolding(board_rules::specs::HandingBack::handed_from))]
fn handed_from(u: Buffer, words: u32, length: usize, start: usize) -> Handed
    requires { start ≤ length }
    ensures { result ≡ handing_rules.handed_from u (4 * words) (call_answers.span length start) }
{
    let bytes = 4 * words as usize;
    if length - start < bytes {
        Handed::TooShort(u, bytes)
    } else {
        Handed::FrameIn(u, bytes)
    }
}

// Where the latest complete frame is. Refusals 1, 16, 9.
#[tactic(auto, unfolding(board_rules::specs::HandingBack::latest_frame, board_rules::specs::HandingBack::handing_refusal, board_rules::specs::HandingBack::handed_latest, board_rules::specs::BoardRuns::turns_of))]
pub fn latest_frame(
    b: Board,
    length_a: usize,
    start_a: usize,
    length_b: usize,
    start_b: usize,
) -> Result<Handed, Refusal>
    ensures { answer_of result ≡ handing_rules.latest_frame b (call_answers.spans length_a start_a length_b start_b) }
{
    let Mode::Two(turns) = b.mode else {
        return Err(unmatched(b));
    };
    refuse_malformed(b)?;
    if length_a < start_a || length_b < start_b {
        return Err(Refusal::StartBeyond);
    }
    let frame = match latest_complete(turns) {
        None => Handed::Nothing,
        Some(Buffer::A) => handed_from(Buffer::A, b.device.core.output.place, length_a, start_a),
        Some(Buffer::B) => handed_from(Buffer::B, turns.place, length_b, start_b),
    };
    Ok(frame)
}

// So many bytes of a memory from its start on.
fn part_in<'m>(memory: &'m [u8], start: usize, bytes: usize) -> &'m [u8]
    requires { start + bytes ≤ length memory.now }
    ensures { result.now ≡ take bytes (drop start memory.now) }
{
    &memory[start..start + bytes]
}

// The part that an answer names; empty where it names none.
#[tactic(auto, unfolding(crate::specs::Answers::Named, board_rules::specs::HandingBack::handed_part))]
fn part_of<'m>(
    handed: Handed,
    memory_a: &'m [u8],
    start_a: usize,
    memory_b: &'m [u8],
    start_b: usize,
) -> &'m [u8]
    requires { call_answers.Named (answered handed) (call_answers.both memory_a.now start_a memory_b.now start_b) }
    ensures { result.now ≡ handing_rules.handed_part (answered handed) (call_answers.both memory_a.now start_a memory_b.now start_b) }
{
    match handed {
        Handed::Nothing | Handed::TooShort(_, _) => part_in(memory_a, 0, 0),
        Handed::FrameIn(Buffer::A, bytes) => part_in(memory_a, start_a, bytes),
        Handed::FrameIn(Buffer::B, bytes) => part_in(memory_b, start_b, bytes),
    }
}

// The part of A or B that holds the latest complete frame, with which it is, or that there is none or which memory is too short for it. Refusals 1, 16, 9.
pub fn hand_back<'m>(
    b: Board,
    memory_a: &'m [u8],
    start_a: usize,
    memory_b: &'m [u8],
    start_b: usize,
) -> Result<HandedBack<'m>, Refusal>
    ensures frame { call_answers.frame_of result ≡ handing_rules.hand_back b (call_answers.both memory_a.now start_a memory_b.now start_b) }
    ensures part { call_answers.part_of result ≡ handing_rules.handed_part (handing_rules.hand_back b (call_answers.both memory_a.now start_a memory_b.now start_b)) (call_answers.both memory_a.now start_a memory_b.now start_b) }
{
    let frame = latest_frame(b, memory_a.len(), start_a, memory_b.len(), start_b)?;
    let part = part_of(frame, memory_a, start_a, memory_b, start_b);
    Ok(HandedBack { frame, part })
}
