// The calls on trace files for callers in C, on words and bytes: what `dcmi` exports under the names of include/dcmi.h. Each function answers for every input, has no `requires`, and states
// its whole result, the image, the memory and the outputs that it leaves, as one equation with a definition of specs/; refused, all of them are as they were.
#![tactic(auto)]

ghost use Rattle.std.specs.Prelude.{List, Ok, ◌≡◌, ℕ};
ghost use Rattle.refusals.specs.Table.{outcome};
ghost use Rattle.board_rules.specs.BoardCalls.{in_one};
ghost use Rattle.image_rules.specs.BoardImage as board_image;
ghost use Rattle.trace_reader.specs.Answers as trace_answers;
ghost use Rattle.trace_writer.specs.Writing as writing;
ghost use Rattle.call_rules.specs.DeviceCalls as call_rules;
ghost use Rattle.file_calls.specs.FileCalls as file_call_rules;

use board_rules::{Board, Mode};
use board_words::image_of;
use refusals::Refusal;
use rules::Device;
use trace_format::Write;
use trace_reader::{Item, read_once};
use trace_writer::{Given, encode_from};

// The image of a device in mode one.
fn image_in_one(device: Device) -> [u32; 67]
    ensures { result ≡ board_image.image_of (in_one device) }
{
    image_of(Board {
        device,
        mode: Mode::One,
    })
}

// A trace file on a fresh device, over the memory from the start byte on.
#[tactic(auto, unfolding(crate::specs::FileCalls::run_file))]
pub fn run_file(
    image: &mut [u32; 67],
    file: &[u8],
    memory: &mut [u8],
    start: usize,
) -> Result<(), Refusal>
    ensures { call_rules.run_called (outcome result) image.new memory.new ≡ file_call_rules.run_file image.old file.now memory.old start }
{
    *image = image_in_one(files::run_file(file, memory, start)?);
    Ok(())
}

// A trace file on a device made with a depth.
#[tactic(auto, unfolding(crate::specs::FileCalls::run_file_depth))]
pub fn run_file_depth(
    image: &mut [u32; 67],
    depth: u32,
    file: &[u8],
    memory: &mut [u8],
    start: usize,
) -> Result<(), Refusal>
    ensures { call_rules.run_called (outcome result) image.new memory.new ≡ file_call_rules.run_file_depth image.old depth file.now memory.old start }
{
    *image = image_in_one(files::run_file_of(depth, file, memory, start)?);
    Ok(())
}

// A trace file into the lent buffer. C gives the writes as two arrays and a count.
#[tactic(auto, unfolding(crate::specs::FileCalls::trace_write))]
pub fn trace_write(
    count: usize,
    offsets: &[u8; 255],
    values: &[u32; 255],
    samples: &[u32],
    out: &mut [u8],
    length: &mut usize,
) -> Result<(), Refusal>
    ensures { file_call_rules.encoded (call_rules.gave (outcome result) length.new) out.new ≡ file_call_rules.trace_write (writing.given count offsets.now values.now) samples.now out.old length.old }
{
    let writes = Given {
        count,
        offsets,
        values,
    };
    *length = encode_from(writes, samples, out)?;
    Ok(())
}

// An item, with the place after it, as four words.
fn item_words(item: Option<Item>, next: usize) -> [u64; 4]
    ensures { (old : List ℕ) → file_call_rules.item_called 0 result ≡ file_call_rules.item_words old (trace_answers.item (Ok item)) next }
{
    match item {
        None => [0, 0, 0, next as u64],
        Some(Item::Write(Write { offset, value })) => [1, offset as u64, value as u64, next as u64],
        Some(Item::Sample(w)) => [2, 0, w as u64, next as u64],
    }
}

// The item at a place of a trace file.
#[tactic(auto, unfolding(crate::specs::FileCalls::trace_item))]
pub fn trace_item(file: &[u8], place: usize, item: &mut [u64; 4]) -> Result<(), Refusal>
    ensures { file_call_rules.item_called (outcome result) item.new ≡ file_call_rules.trace_item file.now place item.old }
{
    let read = read_once(file, place);
    *item = item_words(read.item?, read.place);
    Ok(())
}
