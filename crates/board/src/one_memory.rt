// A run of samples, and one sample, over one lent memory from a start byte on: in mode one.
ghost use Rattle.std.specs.Prelude.{cond, ◌≡◌};
ghost use Rattle.refusals.specs.Table.{number};
ghost use Rattle.board_rules.specs.State as board_state;
ghost use Rattle.board_rules.specs.BoardRuns as board_runs;
ghost use Rattle.board.specs.Answers as call_answers;

use crate::{Sampled, in_one, malformed};
use board_rules::{Board, Mode};
use refusals::Refusal;

// A run: refusals 1, 16, 9, 7, 8, or the device's.
pub fn run(b: Board, memory: &mut [u8], start: usize, samples: &[u32]) -> Result<Board, Refusal>
    ensures { call_answers.ran b result memory.new ≡ board_runs.run b memory.old start samples.now }
{
    match b.mode {
        Mode::One => Ok(in_one(device::run(b.device, memory, start, samples)?)),
        Mode::Two(_) => Err(unmatched(b)),
    }
}

// Why a call over memories that do not match the mode is refused: 1 where the board is malformed, else 16. For the calls here, and for the crate `device_calls`.
pub fn unmatched(b: Board) -> Refusal
    ensures { number result ≡ cond (board_state.malformed b) 1 16 }
{
    if malformed(b) {
        Refusal::Malformed
    } else {
        Refusal::BufferMode
    }
}

// One sample: refusals 1, 16, 9, 7, 8, or the device's.
pub fn sample(b: Board, memory: &mut [u8], start: usize, w: u32) -> Result<Sampled, Refusal>
    ensures { call_answers.sampled b result memory.new ≡ board_runs.sample b memory.old start w }
{
    match b.mode {
        Mode::One => {
            let after = device::sample(b.device, memory, start, w)?;
            Ok(Sampled {
                board: in_one(after.device),
                answer: after.answer,
            })
        }
        Mode::Two(_) => Err(unmatched(b)),
    }
}
