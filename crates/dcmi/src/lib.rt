// The C interface: what include/dcmi.h declares, on numbers and bytes. A device, with its buffer mode, is an image of 67 words that the caller owns. Each function answers 0
// or a refusal number for every input, has no `requires`, and states its whole result, the image, the memory and the outputs that it leaves, as one
// equation with a definition of `call_rules` or `file_calls`; refused, all of them are as they were. What is done is in the crate of each subject, which gives a
// `Result`: here its refusal becomes the number.
#![tactic(auto)]

ghost use Rattle.std.specs.Prelude.{◌≡◌};
ghost use Rattle.board.specs.Answers as call_answers;
ghost use Rattle.trace_writer.specs.Writing as writing;
ghost use Rattle.call_rules.specs.DeviceCalls as call_rules;
ghost use Rattle.file_calls.specs.FileCalls as file_call_rules;

use refusals::number_of;

// A fresh device.
#[unsafe(no_mangle)]
pub extern "C" fn dcmi_reset(image: &mut [u32; 67]) -> u32
    ensures { call_rules.called result image.new ≡ call_rules.reset }
{
    device_calls::reset(image);
    0
}

// A device made with a depth.
#[unsafe(no_mangle)]
pub extern "C" fn dcmi_reset_depth(image: &mut [u32; 67], depth: u32) -> u32
    ensures { call_rules.called result image.new ≡ call_rules.reset_depth image.old depth }
{
    number_of(device_calls::reset_depth(image, depth))
}

// A register write.
#[unsafe(no_mangle)]
pub extern "C" fn dcmi_write(image: &mut [u32; 67], offset: u32, value: u32) -> u32
    ensures { call_rules.called result image.new ≡ call_rules.write image.old offset value }
{
    number_of(device_calls::write(image, offset, value))
}

// The next word goes to place 0.
#[unsafe(no_mangle)]
pub extern "C" fn dcmi_rearm(image: &mut [u32; 67]) -> u32
    ensures { call_rules.called result image.new ≡ call_rules.rearm image.old }
{
    number_of(device_calls::rearm(image))
}

// One frame buffer.
#[unsafe(no_mangle)]
pub extern "C" fn dcmi_one_buffer(image: &mut [u32; 67]) -> u32
    ensures { call_rules.called result image.new ≡ call_rules.one_buffer image.old }
{
    number_of(device_calls::one_buffer(image))
}

// Two frame buffers in turn.
#[unsafe(no_mangle)]
pub extern "C" fn dcmi_two_buffers(image: &mut [u32; 67]) -> u32
    ensures { call_rules.called result image.new ≡ call_rules.two_buffers image.old }
{
    number_of(device_calls::two_buffers(image))
}

// A register read.
#[unsafe(no_mangle)]
pub extern "C" fn dcmi_read(image: &[u32; 67], offset: u32, value: &mut u32) -> u32
    ensures { call_rules.gave result value.new ≡ call_rules.read image.now offset value.old }
{
    number_of(device_calls::read(image, offset, value))
}

// The interrupt line: 1 up, 0 down.
#[unsafe(no_mangle)]
pub extern "C" fn dcmi_interrupt(image: &[u32; 67], level: &mut u32) -> u32
    ensures { call_rules.gave result level.new ≡ call_rules.interrupt image.now level.old }
{
    number_of(device_calls::interrupt(image, level))
}

// A run of samples over the memory from the start byte on.
#[unsafe(no_mangle)]
pub extern "C" fn dcmi_run_slices(
    image: &mut [u32; 67],
    memory: &mut [u8],
    start: usize,
    samples: &[u32],
) -> u32
    ensures { call_rules.run_called result image.new memory.new ≡ call_rules.run image.old memory.old start samples.now }
{
    number_of(device_calls::run(image, memory, start, samples))
}

// A run of samples over two memories, each from its start byte on.
#[unsafe(no_mangle)]
pub extern "C" fn dcmi_run_two_slices(
    image: &mut [u32; 67],
    memory_a: &mut [u8],
    start_a: usize,
    memory_b: &mut [u8],
    start_b: usize,
    samples: &[u32],
) -> u32
    ensures { call_rules.two_called result image.new memory_a.new memory_b.new ≡ call_rules.run_two image.old (call_answers.both memory_a.old start_a memory_b.old start_b) samples.now }
{
    number_of(device_calls::run_two(image, memory_a, start_a, memory_b, start_b, samples))
}

// A trace file on a fresh device, over the memory from the start byte on.
#[unsafe(no_mangle)]
pub extern "C" fn dcmi_run_file_slices(
    image: &mut [u32; 67],
    file: &[u8],
    memory: &mut [u8],
    start: usize,
) -> u32
    ensures { call_rules.run_called result image.new memory.new ≡ file_call_rules.run_file image.old file.now memory.old start }
{
    number_of(file_calls::run_file(image, file, memory, start))
}

// A trace file on a device made with a depth.
#[unsafe(no_mangle)]
pub extern "C" fn dcmi_run_file_depth_slices(
    image: &mut [u32; 67],
    depth: u32,
    file: &[u8],
    memory: &mut [u8],
    start: usize,
) -> u32
    ensures { call_rules.run_called result image.new memory.new ≡ file_call_rules.run_file_depth image.old depth file.now memory.old start }
{
    number_of(file_calls::run_file_depth(image, depth, file, memory, start))
}

// One sample over the memory from the start byte on, with its two answers.
#[unsafe(no_mangle)]
pub extern "C" fn dcmi_sample_slices(
    image: &mut [u32; 67],
    memory: &mut [u8],
    start: usize,
    sample: u32,
    answer: &mut [u64; 4],
) -> u32
    ensures { call_rules.sample_left (call_rules.sample_called result image.new answer.new) memory.new ≡ call_rules.sample image.old memory.old start sample answer.old }
{
    number_of(device_calls::sample(image, memory, start, sample, answer))
}

// One sample over two memories, each from its start byte on, with its two answers.
#[unsafe(no_mangle)]
pub extern "C" fn dcmi_sample_two_slices(
    image: &mut [u32; 67],
    memory_a: &mut [u8],
    start_a: usize,
    memory_b: &mut [u8],
    start_b: usize,
    sample: u32,
    answer: &mut [u64; 4],
) -> u32
    ensures { call_rules.two_left (call_rules.sample_called result image.new answer.new) memory_a.new memory_b.new ≡ call_rules.sample_two image.old (call_answers.both memory_a.old start_a memory_b.old start_b) sample answer.old }
{
    number_of(device_calls::sample_two(image, memory_a, start_a, memory_b, start_b, sample, answer))
}

// Where the latest complete frame is, by the lengths and starts of the two memories.
#[unsafe(no_mangle)]
pub extern "C" fn dcmi_latest_frame(
    image: &[u32; 67],
    length_a: usize,
    start_a: usize,
    length_b: usize,
    start_b: usize,
    frame: &mut [u64; 3],
) -> u32
    ensures { call_rules.frame_called result frame.new ≡ call_rules.latest_frame image.now (call_answers.spans length_a start_a length_b start_b) frame.old }
{
    number_of(device_calls::latest_frame(image, length_a, start_a, length_b, start_b, frame))
}

// A trace file into the lent buffer.
#[unsafe(no_mangle)]
pub extern "C" fn dcmi_trace_write_slices(
    count: usize,
    offsets: &[u8; 255],
    values: &[u32; 255],
    samples: &[u32],
    out: &mut [u8],
    length: &mut usize,
) -> u32
    ensures { file_call_rules.encoded (call_rules.gave result length.new) out.new ≡ file_call_rules.trace_write (writing.given count offsets.now values.now) samples.now out.old length.old }
{
    number_of(file_calls::trace_write(count, offsets, values, samples, out, length))
}

// The item at a place of a trace file.
#[unsafe(no_mangle)]
pub extern "C" fn dcmi_trace_item_slices(file: &[u8], place: usize, item: &mut [u64; 4]) -> u32
    ensures { file_call_rules.item_called result item.new ≡ file_call_rules.trace_item file.now place item.old }
{
    number_of(file_calls::trace_item(file, place, item))
}
