// The calls on a device for callers in C, on words and bytes: what `dcmi` exports under the names of include/dcmi.h. A device, with its buffer mode, is an image of 67 words that the caller
// owns. Each function answers for every input, has no `requires`, and states its whole result, the image, the memory and the outputs that it leaves, as one
// equation with a definition of `call_rules`; refused, all of them are as they were. The outputs are lent, as callers in C lend them.
#![tactic(auto)]

ghost use Rattle.std.specs.Prelude.{cond, List, ◌≡◌, ℕ};
ghost use Rattle.refusals.specs.Refusals.{refused, answered};
ghost use Rattle.refusals.specs.Table.{outcome, answer_of};
ghost use Rattle.image_rules.specs.BoardImage as board_image;
ghost use Rattle.board.specs.Answers as call_answers;
ghost use Rattle.call_rules.specs.DeviceCalls as call_rules;

use board_rules::{Board, Handed, Landing, Mode, TwoAnswer};
use board_words::{board_of, encodes, image_of};
use buffers::Buffer;
use output::{Packing, SampleAnswer};
use refusals::Refusal;
use rules::Device;
use sampling::sample_core;

// The board of an image. Refusal 1 where it encodes none. Inlined: a sample takes 110 instructions less (docs/SPEED.md).
#[inline(always)]
fn board_in(image: &[u32; 67]) -> Result<Board, Refusal>
    ensures { answer_of result ≡ cond (board_image.encodes image.now) (answered (board_image.board_of image.now)) (refused 1) }
{
    if encodes(*image) {
        Ok(board_of(*image))
    } else {
        Err(Refusal::Malformed)
    }
}

// A fresh device.
#[tactic(auto, unfolding(call_rules::specs::DeviceCalls::reset))]
pub fn reset(image: &mut [u32; 67])
    ensures { call_rules.called 0 image.new ≡ call_rules.reset }
{
    *image = image_of(board::fresh());
}

// A device made with a depth.
#[tactic(auto, unfolding(call_rules::specs::DeviceCalls::reset_depth))]
pub fn reset_depth(image: &mut [u32; 67], depth: u32) -> Result<(), Refusal>
    ensures { call_rules.called (outcome result) image.new ≡ call_rules.reset_depth image.old depth }
{
    *image = image_of(board::made(depth)?);
    Ok(())
}

// A register write.
#[tactic(auto, unfolding(call_rules::specs::DeviceCalls::write))]
pub fn write(image: &mut [u32; 67], offset: u32, value: u32) -> Result<(), Refusal>
    ensures { call_rules.called (outcome result) image.new ≡ call_rules.write image.old offset value }
{
    *image = image_of(board::write(board_in(image)?, offset, value)?);
    Ok(())
}

// The next word goes to place 0.
#[tactic(auto, unfolding(call_rules::specs::DeviceCalls::rearm))]
pub fn rearm(image: &mut [u32; 67]) -> Result<(), Refusal>
    ensures { call_rules.called (outcome result) image.new ≡ call_rules.rearm image.old }
{
    *image = image_of(board::rearm(board_in(image)?)?);
    Ok(())
}

// One frame buffer.
#[tactic(auto, unfolding(call_rules::specs::DeviceCalls::one_buffer))]
pub fn one_buffer(image: &mut [u32; 67]) -> Result<(), Refusal>
    ensures { call_rules.called (outcome result) image.new ≡ call_rules.one_buffer image.old }
{
    *image = image_of(board::one_buffer(board_in(image)?)?);
    Ok(())
}

// Two frame buffers in turn.
#[tactic(auto, unfolding(call_rules::specs::DeviceCalls::two_buffers))]
pub fn two_buffers(image: &mut [u32; 67]) -> Result<(), Refusal>
    ensures { call_rules.called (outcome result) image.new ≡ call_rules.two_buffers image.old }
{
    *image = image_of(board::two_buffers(board_in(image)?)?);
    Ok(())
}

// A register read.
#[tactic(auto, unfolding(call_rules::specs::DeviceCalls::read))]
pub fn read(image: &[u32; 67], offset: u32, value: &mut u32) -> Result<(), Refusal>
    ensures { call_rules.gave (outcome result) value.new ≡ call_rules.read image.now offset value.old }
{
    *value = board::read(board_in(image)?, offset)?;
    Ok(())
}

// The interrupt line: 1 up, 0 down.
#[tactic(auto, unfolding(call_rules::specs::DeviceCalls::interrupt))]
pub fn interrupt(image: &[u32; 67], level: &mut u32) -> Result<(), Refusal>
    ensures { call_rules.gave (outcome result) level.new ≡ call_rules.interrupt image.now level.old }
{
    *level = u32::from(board::interrupt(board_in(image)?)?);
    Ok(())
}

// A run of samples over the memory from the start byte on.
#[tactic(auto, unfolding(call_rules::specs::DeviceCalls::run))]
pub fn run(
    image: &mut [u32; 67],
    memory: &mut [u8],
    start: usize,
    samples: &[u32],
) -> Result<(), Refusal>
    ensures { call_rules.run_called (outcome result) image.new memory.new ≡ call_rules.run image.old memory.old start samples.now }
{
    *image = image_of(board::run(board_in(image)?, memory, start, samples)?);
    Ok(())
}

// A run of samples over two memories, each from its start byte on.
#[tactic(auto, unfolding(call_rules::specs::DeviceCalls::run_two))]
pub fn run_two(
    image: &mut [u32; 67],
    memory_a: &mut [u8],
    start_a: usize,
    memory_b: &mut [u8],
    start_b: usize,
    samples: &[u32],
) -> Result<(), Refusal>
    ensures { call_rules.two_called (outcome result) image.new memory_a.new memory_b.new ≡ call_rules.run_two image.old (call_answers.both memory_a.old start_a memory_b.old start_b) samples.now }
{
    let b = board_in(image)?;
    *image = image_of(board::run_two(b, memory_a, start_a, memory_b, start_b, samples)?);
    Ok(())
}

// What became of a sample's own word, and the word, as a number.
fn packed_word(packed: Packing) -> u64
    ensures { result ≡ call_rules.packed_word packed }
{
    match packed {
        Packing::Nothing => 0,
        Packing::Completed(_) => 1,
        Packing::Lost => 2,
    }
}

fn value_word(packed: Packing) -> u64
    ensures { result ≡ call_rules.value_word packed }
{
    match packed {
        Packing::Completed(value) => value as u64,
        Packing::Nothing | Packing::Lost => 0,
    }
}

// A sample's two answers as four words.
fn answer_words(answer: SampleAnswer) -> [u64; 4]
    ensures { result ≡ call_rules.answer_words answer }
{
    let (landed, byte) = match answer.landing {
        None => (0, 0),
        Some(byte) => (1, byte as u64),
    };
    [
        landed,
        byte,
        packed_word(answer.packed),
        value_word(answer.packed),
    ]
}

// One sample over the memory from the start byte on, with its two answers. The slots are lent to the one core by itself (docs/SPEED.md).
#[tactic(auto, unfolding(call_rules::specs::DeviceCalls::sample))]
pub fn sample(
    image: &mut [u32; 67],
    memory: &mut [u8],
    start: usize,
    sample: u32,
    answer: &mut [u64; 4],
) -> Result<(), Refusal>
    ensures { call_rules.sample_left (call_rules.sample_called (outcome result) image.new answer.new) memory.new ≡ call_rules.sample image.old memory.old start sample answer.old }
{
    let b = board_in(image)?;
    let Mode::One = b.mode else {
        return Err(board::unmatched(b));
    };
    let mut slots = b.device.slots;
    let after = sample_core(b.device.core, &mut slots, memory, start, sample)?;
    *image = image_of(Board {
        device: Device {
            core: after.core,
            slots,
        },
        mode: Mode::One,
    });
    *answer = answer_words(after.answer);
    Ok(())
}

// A buffer as a number.
fn in_word(u: Buffer) -> u64
    ensures { result ≡ call_rules.in_word u }
{
    match u {
        Buffer::A => 1,
        Buffer::B => 2,
    }
}

// The two answers of a sample over two memories as four words.
fn two_words(answer: TwoAnswer) -> [u64; 4]
    ensures { result ≡ call_rules.two_words answer }
{
    let (landed, byte) = match answer.landing {
        None => (0, 0),
        Some(Landing { buffer, byte }) => (in_word(buffer), byte as u64),
    };
    [
        landed,
        byte,
        packed_word(answer.packed),
        value_word(answer.packed),
    ]
}

// One sample over two memories, each from its start byte on, with its two answers.
#[tactic(auto, unfolding(call_rules::specs::DeviceCalls::sample_two))]
pub fn sample_two(
    image: &mut [u32; 67],
    memory_a: &mut [u8],
    start_a: usize,
    memory_b: &mut [u8],
    start_b: usize,
    sample: u32,
    answer: &mut [u64; 4],
) -> Result<(), Refusal>
    ensures { call_rules.two_left (call_rules.sample_called (outcome result) image.new answer.new) memory_a.new memory_b.new ≡ call_rules.sample_two image.old (call_answers.both memory_a.old start_a memory_b.old start_b) sample answer.old }
{
    let b = board_in(image)?;
    let after = board::sample_two(b, memory_a, start_a, memory_b, start_b, sample)?;
    *image = image_of(after.board);
    *answer = two_words(after.answer);
    Ok(())
}

fn start_of(u: Buffer, start_a: usize, start_b: usize) -> u64
    ensures { result ≡ call_rules.start_of u (call_answers.spans 0 start_a 0 start_b) }
{
    match u {
        Buffer::A => start_a as u64,
        Buffer::B => start_b as u64,
    }
}

fn short_word(u: Buffer) -> u64
    ensures { result ≡ call_rules.short_word u }
{
    match u {
        Buffer::A => 3,
        Buffer::B => 4,
    }
}

// Where the latest complete frame is, as three words.
fn frame_words(handed: Handed, start_a: usize, start_b: usize) -> [u64; 3]
    ensures { (la lb : ℕ) (old : List ℕ) → call_rules.frame_called 0 result ≡ call_rules.frame_words old (call_answers.spans la start_a lb start_b) (answered handed) }
{
    match handed {
        Handed::Nothing => [0, 0, 0],
        Handed::TooShort(u, bytes) => [short_word(u), start_of(u, start_a, start_b), bytes as u64],
        Handed::FrameIn(u, bytes) => [in_word(u), start_of(u, start_a, start_b), bytes as u64],
    }
}

// Where the latest complete frame is, by the lengths and starts of the two memories.
#[tactic(auto, unfolding(call_rules::specs::DeviceCalls::latest_frame))]
pub fn latest_frame(
    image: &[u32; 67],
    length_a: usize,
    start_a: usize,
    length_b: usize,
    start_b: usize,
    frame: &mut [u64; 3],
) -> Result<(), Refusal>
    ensures { call_rules.frame_called (outcome result) frame.new ≡ call_rules.latest_frame image.now (call_answers.spans length_a start_a length_b start_b) frame.old }
{
    let b = board_in(image)?;
    let handed = board::latest_frame(b, length_a, start_a, length_b, start_b)?;
    *frame = frame_words(handed, start_a, start_b);
    Ok(())
}
