// Register reads and writes, the interrupt line, re-arming and setting the mode.
ghost use Rattle.std.specs.Prelude.{cond, ◌≡◌};
ghost use Rattle.refusals.specs.Table.{answer_of};
ghost use Rattle.buffers.specs.Turns as turn_rules;
ghost use Rattle.board_rules.specs.BoardCalls as board_calls;
ghost use Rattle.board.specs.Answers as call_answers;

use crate::refuse_malformed;
use board_rules::{Board, Mode};
use buffers::Turns;
use fields::control;
use refusals::Refusal;
use rules::Device;
use turning::{discarded, fresh_turns, rearmed};

// A register read: refusals 1, 2, 3, or the value.
#[tactic(auto, unfolding(board_rules::specs::BoardCalls::read))]
pub fn read(b: Board, offset: u32) -> Result<u32, Refusal>
    ensures { answer_of result ≡ board_calls.read b offset }
{
    refuse_malformed(b)?;
    device::read(b.device, offset)
}

// The interrupt line is up exactly if MIS is not 0. Refusal 1.
#[tactic(auto, unfolding(board_rules::specs::BoardCalls::interrupt))]
pub fn interrupt(b: Board) -> Result<bool, Refusal>
    ensures { answer_of result ≡ board_calls.interrupt b }
{
    refuse_malformed(b)?;
    device::interrupt(b.device)
}

// ENABLE went from 1 to 0.
#[tactic(auto, unfolding(board_rules::specs::BoardCalls::disabled))]
fn disabled(d: Device, after: Device) -> bool
    ensures { result ≡ board_calls.disabled d after }
{
    control::enable(d.core.capture.registers.cr)
        && !control::enable(after.core.capture.registers.cr)
}

fn discarded_if(falls: bool, turns: Turns) -> Turns
    ensures { result ≡ cond falls (turn_rules.discarded turns) turns }
{
    if falls { discarded(turns) } else { turns }
}

#[tactic(auto, unfolding(board_rules::specs::BoardCalls::mode_after))]
fn mode_after(falls: bool, mode: Mode) -> Mode
    ensures { result ≡ board_calls.mode_after falls mode }
{
    match mode {
        Mode::One => Mode::One,
        Mode::Two(turns) => Mode::Two(discarded_if(falls, turns)),
    }
}

// A register write: refusals 1 to 6 in order, or its effect.
#[tactic(auto, unfolding(board_rules::specs::BoardCalls::write))]
pub fn write(b: Board, offset: u32, value: u32) -> Result<Board, Refusal>
    ensures { call_answers.changed b result ≡ board_calls.write b offset value }
{
    refuse_malformed(b)?;
    let device = device::write(b.device, offset, value)?;
    let mode = mode_after(disabled(b.device, device), b.mode);
    Ok(Board { device, mode })
}

#[tactic(auto, unfolding(board_rules::specs::BoardCalls::rearmed_mode))]
fn rearmed_mode(mode: Mode) -> Mode
    ensures { result ≡ board_calls.rearmed_mode mode }
{
    match mode {
        Mode::One => Mode::One,
        Mode::Two(turns) => Mode::Two(rearmed(turns)),
    }
}

// Re-arming: every place is 0, and no frame is complete. Refusal 1.
#[tactic(auto, unfolding(board_rules::specs::BoardCalls::rearm))]
pub fn rearm(b: Board) -> Result<Board, Refusal>
    ensures { call_answers.changed b result ≡ board_calls.rearm b }
{
    refuse_malformed(b)?;
    Ok(Board {
        device: device::rearmed(b.device),
        mode: rearmed_mode(b.mode),
    })
}

// A mode is set: it re-arms. Refusals 1, 6.
#[tactic(auto, unfolding(board_rules::specs::BoardCalls::set_mode))]
fn set_mode(mode: Mode, b: Board) -> Result<Board, Refusal>
    ensures { call_answers.changed b result ≡ board_calls.set_mode mode b }
{
    refuse_malformed(b)?;
    if control::enable(b.device.core.capture.registers.cr) {
        return Err(Refusal::Enabled);
    }
    Ok(Board {
        device: device::rearmed(b.device),
        mode,
    })
}

// One frame buffer.
pub fn one_buffer(b: Board) -> Result<Board, Refusal>
    ensures { call_answers.changed b result ≡ board_calls.one_buffer b }
{
    set_mode(Mode::One, b)
}

// Two frame buffers in turn: the first frame with a word goes to A.
pub fn two_buffers(b: Board) -> Result<Board, Refusal>
    ensures { call_answers.changed b result ≡ board_calls.two_buffers b }
{
    set_mode(Mode::Two(fresh_turns()), b)
}
